//! The lines of the input: each is answered, and a batch runs where one is due; and its end.

ghost use Rattle.std.specs.Prelude.{◌≡◌, ◌≤◌, ◌<◌, ◌+◌, ◌^◌, ℕ, List, false, [], ◌∷◌, OnOk};
ghost use Rattle.engine.specs.EngineViews.{core_of};
ghost use Rattle.session_store.specs.Vocabulary.{logged_of};
ghost use Rattle.session_store.specs.Stores.{settings_of};
ghost use Rattle.request_json.specs.RequestLines.{longest};
ghost use Rattle.request_json.specs.Actions.{last_line};
ghost use Rattle.input_lines.specs.Reads.{IsStart, IsNew};
ghost use Rattle.session_steps.specs.Vocabulary.{cut, state_of, service_by, disk_failed, IsInRange, GoesOn};
ghost use Rattle.session_steps.specs.Steps.{Answer, answers, last_steps, open_at};
ghost use Rattle.session_steps.specs.Doings.{LogsSteps};
ghost use Rattle.session_steps.specs.Traces.{no_batch};
ghost use Rattle.batch_session.specs.Points.{point_of};
ghost use Rattle.batch_session.specs.Answering.{AnswersKept, AnswersLast, Finishes};
ghost use Rattle.batch_session.specs.SessionStates.{IsReady, WritesOn};
ghost use Rattle.batch_session.specs.Faults.{line_unwritten};
ghost use Rattle.batch_session.specs.InTurn.{IsInTurnAt};

use crate::ending::run_waiting;
use crate::reporting::end_batch;
use engine::Engine;
use input_lines::{LONGEST, Lines};
use operator_graph::Watch;
use reservations::CommitRule;
use session_steps::{InputLine, Stop, Tally, Terms, answer_line};
use session_store::Store;
use sf_outside::{Chooser, Disk, Sink};
use std::alloc::Global;

/// What a session keeps between two lines beside its engine.
#[derive(Drop)]
pub(crate) struct Intake {
    pub(crate) reader: Lines,
    /// How many lines were answered.
    lines: u64,
    pub(crate) tally: Tally,
}

impl Intake {
    /// Before the first line of an input of which so many bytes are taken at most.
    pub(crate) fn new(alloc: Global, limit: u64) -> Intake
        ensures reader { IsNew limit longest result.reader }
        ensures lines { result.lines ≡ 0 }
        ensures tally { result.tally ≡ no_batch }
    {
        Intake {
            reader: Lines::new(alloc, limit, LONGEST as u32),
            lines: 0,
            tally: Tally::new(),
        }
    }

    /// Answers the line that the reader shows, and ends the batch that ran.
    pub(crate) fn answer<R: CommitRule, K: Sink, E: Sink, D: Disk, C: Chooser, W: Watch>(
        &mut self,
        terms: &Terms<'_, R>,
        engine: &mut Engine,
        store: &mut Option<Store>,
        out: &mut K,
        err: &mut E,
        disk: &mut D,
        chooser: &mut C,
        watch: &mut W,
    ) -> Result<(), Stop>
        requires range { IsInRange terms.now.settings.now }
        requires ready { IsReady (state_of engine.old store.old (D.facts disk.old) (D.faults disk.old) (D.mounts disk.old)) self.old.tally.batches }
        requires lines { self.old.lines + 1 < 2 ^ 64 }
        ensures answers { AnswersKept (service_by engine.old (R.choice terms.now.rule.now) terms.now.settings.now)
            terms.now.settings.now.trace result self.old.reader.ended self.old.reader.line
            (point_of engine.old self.old.lines self.old.tally (K.held out.old) (K.handed out.old) (E.held err.old) (C.choices chooser.old) (W.told watch.old))
            (point_of engine.new self.new.lines self.new.tally (K.held out.new) (K.handed out.new) (E.held err.new) (C.choices chooser.new) (W.told watch.new)) }
        ensures within { self.new.lines ≤ self.old.lines + 1 }
        ensures reader { self.new.reader ≡ self.old.reader }
        ensures logs { (line : List ℕ) → IsStart longest self.old.reader.line line
            → LogsSteps (service_by engine.old (R.choice terms.now.rule.now) terms.now.settings.now)
            (settings_of store.old) (core_of engine.old) self.old.lines (Answer (cut self.old.reader.ended line) ∷ [])
            (logged_of engine.old) (logged_of engine.new) (D.facts disk.old) (D.facts disk.new) }
        ensures ready { OnOk result (IsReady
            (state_of engine.new store.new (D.facts disk.new) (D.faults disk.new) (D.mounts disk.new)) self.new.tally.batches) }
        ensures in_turn { IsInTurnAt terms.now.settings.now.trace result store.new self.new.tally.batches }
        ensures goes_on { GoesOn (R.choice terms.now.rule.now) (disk_failed result)
            (state_of engine.old store.old (D.facts disk.old) (D.faults disk.old) (D.mounts disk.old))
            (state_of engine.new store.new (D.facts disk.new) (D.faults disk.new) (D.mounts disk.new)) }
        ensures writes { WritesOn (line_unwritten result) (K.faults out.old) (K.faults out.new) (E.faults err.old) (E.faults err.new) }
    {
        let line = InputLine {
            bytes: self.reader.line(),
            ended: self.reader.ended(),
            number: self.lines + 1,
        };
        match answer_line(terms, engine, store, line, out, disk, chooser, watch) {
            Ok(ran) => {
                self.lines += 1;
                match ran {
                    Some(counts) => end_batch(
                        engine,
                        store,
                        terms.settings,
                        err,
                        disk,
                        &mut self.tally,
                        counts,
                    ),
                    None => Ok(()),
                }
            }
            Err(stop) => Err(stop),
        }
    }

    /// Answers a last line without LF, where it has a byte.
    fn answer_last<R: CommitRule, K: Sink, E: Sink, D: Disk, C: Chooser, W: Watch>(
        &mut self,
        terms: &Terms<'_, R>,
        engine: &mut Engine,
        store: &mut Option<Store>,
        out: &mut K,
        err: &mut E,
        disk: &mut D,
        chooser: &mut C,
        watch: &mut W,
    ) -> Result<(), Stop>
        requires range { IsInRange terms.now.settings.now }
        requires ready { IsReady (state_of engine.old store.old (D.facts disk.old) (D.faults disk.old) (D.mounts disk.old)) self.old.tally.batches }
        requires lines { self.old.lines + 1 < 2 ^ 64 }
        requires left { self.old.reader.ended ≡ false }
        ensures answers { AnswersLast (service_by engine.old (R.choice terms.now.rule.now) terms.now.settings.now)
            terms.now.settings.now.trace result self.old.reader.line
            (point_of engine.old self.old.lines self.old.tally (K.held out.old) (K.handed out.old) (E.held err.old) (C.choices chooser.old) (W.told watch.old))
            (point_of engine.new self.new.lines self.new.tally (K.held out.new) (K.handed out.new) (E.held err.new) (C.choices chooser.new) (W.told watch.new)) }
        ensures logs { (part : List ℕ) → IsStart longest self.old.reader.line part
            → LogsSteps (service_by engine.old (R.choice terms.now.rule.now) terms.now.settings.now)
            (settings_of store.old) (core_of engine.old) self.old.lines (answers (last_line part))
            (logged_of engine.old) (logged_of engine.new) (D.facts disk.old) (D.facts disk.new) }
        ensures ready { OnOk result (IsReady
            (state_of engine.new store.new (D.facts disk.new) (D.faults disk.new) (D.mounts disk.new)) self.new.tally.batches) }
        ensures in_turn { IsInTurnAt terms.now.settings.now.trace result store.new self.new.tally.batches }
        ensures goes_on { GoesOn (R.choice terms.now.rule.now) (disk_failed result)
            (state_of engine.old store.old (D.facts disk.old) (D.faults disk.old) (D.mounts disk.old))
            (state_of engine.new store.new (D.facts disk.new) (D.faults disk.new) (D.mounts disk.new)) }
        ensures writes { WritesOn (line_unwritten result) (K.faults out.old) (K.faults out.new) (E.faults err.old) (E.faults err.new) }
    {
        if self.reader.line().is_empty() {
            return Ok(());
        }
        self.answer(terms, engine, store, out, err, disk, chooser, watch)
    }

    /// The end of the input: answers a last line, and runs batches until nothing waits.
    pub(crate) fn finish<R: CommitRule, K: Sink, E: Sink, D: Disk, C: Chooser, W: Watch>(
        &mut self,
        terms: &Terms<'_, R>,
        engine: &mut Engine,
        store: &mut Option<Store>,
        out: &mut K,
        err: &mut E,
        disk: &mut D,
        chooser: &mut C,
        watch: &mut W,
    ) -> Result<(), Stop>
        requires range { IsInRange terms.now.settings.now }
        requires ready { IsReady (state_of engine.old store.old (D.facts disk.old) (D.faults disk.old) (D.mounts disk.old)) self.old.tally.batches }
        requires lines { self.old.lines + 1 < 2 ^ 64 }
        requires left { self.old.reader.ended ≡ false }
        ensures finishes { Finishes (service_by engine.old (R.choice terms.now.rule.now) terms.now.settings.now)
            terms.now.settings.now.trace result self.old.reader.line
            (point_of engine.old self.old.lines self.old.tally (K.held out.old) (K.handed out.old) (E.held err.old) (C.choices chooser.old) (W.told watch.old))
            (point_of engine.new self.new.lines self.new.tally (K.held out.new) (K.handed out.new) (E.held err.new) (C.choices chooser.new) (W.told watch.new)) }
        ensures none { OnOk result ((core_of engine.new).pending ≡ []) }
        ensures logs { (part : List ℕ) → IsStart longest self.old.reader.line part
            → LogsSteps (service_by engine.old (R.choice terms.now.rule.now) terms.now.settings.now)
            (settings_of store.old) (core_of engine.old) self.old.lines
            (last_steps (service_by engine.old (R.choice terms.now.rule.now) terms.now.settings.now)
            (open_at (core_of engine.old) self.old.lines) (last_line part))
            (logged_of engine.old) (logged_of engine.new) (D.facts disk.old) (D.facts disk.new) }
        ensures ready { OnOk result (IsReady
            (state_of engine.new store.new (D.facts disk.new) (D.faults disk.new) (D.mounts disk.new)) self.new.tally.batches) }
        ensures in_turn { IsInTurnAt terms.now.settings.now.trace result store.new self.new.tally.batches }
        ensures goes_on { GoesOn (R.choice terms.now.rule.now) (disk_failed result)
            (state_of engine.old store.old (D.facts disk.old) (D.faults disk.old) (D.mounts disk.old))
            (state_of engine.new store.new (D.facts disk.new) (D.faults disk.new) (D.mounts disk.new)) }
        ensures writes { WritesOn (line_unwritten result) (K.faults out.old) (K.faults out.new) (E.faults err.old) (E.faults err.new) }
    {
        self.answer_last(terms, engine, store, out, err, disk, chooser, watch)?;
        run_waiting(
            terms,
            engine,
            store,
            out,
            err,
            disk,
            chooser,
            watch,
            &mut self.tally,
        )
    }
}
