//! Batches at the end of the input, until nothing waits.

ghost use Rattle.std.specs.Prelude.{◌≡◌, ◌<◌, ℕ, [], ◌∷◌, length, OnOk};
ghost use Rattle.engine.specs.EngineViews.{core_of};
ghost use Rattle.session_store.specs.Vocabulary.{logged_of};
ghost use Rattle.session_store.specs.Stores.{settings_of};
ghost use Rattle.session_steps.specs.Vocabulary.{state_of, service_by, disk_failed, IsInRange, GoesOn};
ghost use Rattle.session_steps.specs.Steps.{RunWaiting, endings, open_at};
ghost use Rattle.session_steps.specs.Doings.{LogsSteps};
ghost use Rattle.batch_session.specs.Points.{point_of};
ghost use Rattle.batch_session.specs.Answering.{RunsOne, RunsWaiting};
ghost use Rattle.batch_session.specs.SessionStates.{IsReady, WritesOn};
ghost use Rattle.batch_session.specs.Faults.{line_unwritten};
ghost use Rattle.batch_session.specs.InTurn.{IsInTurnAt};

use crate::reporting::end_batch;
use engine::Engine;
use operator_graph::Watch;
use reservations::CommitRule;
use session_steps::{Stop, Tally, Terms, answer_batch};
use session_store::Store;
use sf_list::Sequence;
use sf_outside::{Chooser, Disk, Sink};

/// Runs batches until nothing waits.
pub(crate) fn run_waiting<R: CommitRule, K: Sink, E: Sink, D: Disk, C: Chooser, W: Watch>(
    terms: &Terms<'_, R>,
    engine: &mut Engine,
    store: &mut Option<Store>,
    out: &mut K,
    err: &mut E,
    disk: &mut D,
    chooser: &mut C,
    watch: &mut W,
    tally: &mut Tally,
) -> Result<(), Stop>
    requires range { IsInRange terms.now.settings.now }
    requires ready { IsReady (state_of engine.old store.old (D.facts disk.old) (D.faults disk.old) (D.mounts disk.old)) tally.old.batches }
    ensures runs_waiting { (lines : ℕ)
        → RunsWaiting (service_by engine.old (R.choice terms.now.rule.now) terms.now.settings.now) terms.now.settings.now.trace result
        (point_of engine.old lines tally.old (K.held out.old) (K.handed out.old) (E.held err.old) (C.choices chooser.old) (W.told watch.old))
        (point_of engine.new lines tally.new (K.held out.new) (K.handed out.new) (E.held err.new) (C.choices chooser.new) (W.told watch.new)) }
    ensures none { OnOk result ((core_of engine.new).pending ≡ []) }
    ensures logs { (lines : ℕ) → LogsSteps (service_by engine.old (R.choice terms.now.rule.now) terms.now.settings.now)
        (settings_of store.old) (core_of engine.old) lines (endings (open_at (core_of engine.old) lines))
        (logged_of engine.old) (logged_of engine.new) (D.facts disk.old) (D.facts disk.new) }
    ensures ready { OnOk result (IsReady (state_of engine.new store.new (D.facts disk.new) (D.faults disk.new) (D.mounts disk.new)) tally.new.batches) }
    ensures in_turn { IsInTurnAt terms.now.settings.now.trace result store.new tally.new.batches }
    ensures goes_on { GoesOn (R.choice terms.now.rule.now) (disk_failed result)
        (state_of engine.old store.old (D.facts disk.old) (D.faults disk.old) (D.mounts disk.old))
        (state_of engine.new store.new (D.facts disk.new) (D.faults disk.new) (D.mounts disk.new)) }
    ensures writes { WritesOn (line_unwritten result) (K.faults out.old) (K.faults out.new) (E.faults err.old) (E.faults err.new) }
{
    'batches: while !engine.pending().is_empty() {
        run_batch(terms, engine, store, out, err, disk, chooser, watch, tally)?;
    }
    Ok(())
}

/// Runs a batch of all that wait, as `answer_batch` does it, and ends it.
fn run_batch<R: CommitRule, K: Sink, E: Sink, D: Disk, C: Chooser, W: Watch>(
    terms: &Terms<'_, R>,
    engine: &mut Engine,
    store: &mut Option<Store>,
    out: &mut K,
    err: &mut E,
    disk: &mut D,
    chooser: &mut C,
    watch: &mut W,
    tally: &mut Tally,
) -> Result<(), Stop>
    requires range { IsInRange terms.now.settings.now }
    requires ready { IsReady (state_of engine.old store.old (D.facts disk.old) (D.faults disk.old) (D.mounts disk.old)) tally.old.batches }
    requires some { 0 < length (core_of engine.old).pending }
    ensures runs_one { (lines : ℕ)
        → RunsOne (service_by engine.old (R.choice terms.now.rule.now) terms.now.settings.now) terms.now.settings.now.trace result
        (point_of engine.old lines tally.old (K.held out.old) (K.handed out.old) (E.held err.old) (C.choices chooser.old) (W.told watch.old))
        (point_of engine.new lines tally.new (K.held out.new) (K.handed out.new) (E.held err.new) (C.choices chooser.new) (W.told watch.new)) }
    ensures fewer { OnOk result (length (core_of engine.new).pending < length (core_of engine.old).pending) }
    ensures logs { (lines : ℕ) → LogsSteps (service_by engine.old (R.choice terms.now.rule.now) terms.now.settings.now)
        (settings_of store.old) (core_of engine.old) lines (RunWaiting ∷ [])
        (logged_of engine.old) (logged_of engine.new) (D.facts disk.old) (D.facts disk.new) }
    ensures ready { OnOk result (IsReady (state_of engine.new store.new (D.facts disk.new) (D.faults disk.new) (D.mounts disk.new)) tally.new.batches) }
    ensures in_turn { IsInTurnAt terms.now.settings.now.trace result store.new tally.new.batches }
    ensures goes_on { GoesOn (R.choice terms.now.rule.now) (disk_failed result)
        (state_of engine.old store.old (D.facts disk.old) (D.faults disk.old) (D.mounts disk.old))
        (state_of engine.new store.new (D.facts disk.new) (D.faults disk.new) (D.mounts disk.new)) }
    ensures writes { WritesOn (line_unwritten result) (K.faults out.old) (K.faults out.new) (E.faults err.old) (E.faults err.new) }
{
    match answer_batch(
        terms.alloc,
        engine,
        store,
        terms.settings.parts,
        terms.rule,
        out,
        disk,
        chooser,
        watch,
    ) {
        Ok(counts) => end_batch(engine, store, terms.settings, err, disk, tally, counts),
        Err(stop) => Err(stop),
    }
}
