//! A line from its bytes to its answer: what it is answered at once is written first, and then a batch runs
//! where one is due.

ghost use Rattle.std.specs.Prelude.{◌≡◌, ◌≤◌, ◌<◌, true, [], length, IfOk, OnOk, OnErr, IsSome, Err};
ghost use Rattle.std.specs.List.{cons_option};
ghost use Rattle.std.specs.Io.KnownBytes.{Appends};
ghost use Rattle.sf_outside.specs.Bytes.{AppendsPrefix};
ghost use Rattle.sf_outside.specs.Causes.{Rose, HasCause};
ghost use Rattle.sf_outside.specs.Gains.{joined};
ghost use Rattle.engine.specs.EngineViews.{core_of, source_of, fresh_of};
ghost use Rattle.batch_replies.specs.Vocabulary.{logged_of, cycle_of, settings_of};
ghost use Rattle.batch_replies.specs.Stops.{disk_failed};
ghost use Rattle.batch_replies.specs.GoingOn.{state_of, CanGoOn, GoesOn};
ghost use Rattle.batch_replies.specs.Moments.{Logs};
ghost use Rattle.batch_replies.specs.Flushing.{StaysHanded};
ghost use Rattle.line_answers.specs.LineViews.{line_of};
ghost use Rattle.line_answers.specs.Services.{service_by, IsInRange};
ghost use Rattle.line_answers.specs.Flushing.{FlushesBatch};
ghost use Rattle.line_answers.specs.LineAnswers.{before, moment_of, move_at, ran_by, Moves, AnswersLine, line_result};

use crate::reading::InputLine;
use crate::settings::Terms;
use crate::taking::{Taken, take_line};
use batch_replies::{BatchCounts, Stop, Store, answer_batch};
use engine::Engine;
use operator_graph::Watch;
use reservations::CommitRule;
use sf_outside::{Chooser, Disk, Failed, Sink};
use sf_value::Bytes;

/// Takes a line. What it is answered at once is written, and not flushed. Where a batch is due then, it
/// is run, logged where there is a store, committed and answered. The counts are those of the batch.
pub fn answer_line<R: CommitRule, K: Sink, D: Disk, C: Chooser, W: Watch>(
    terms: &Terms<'_, R>,
    engine: &mut Engine,
    store: &mut Option<Store>,
    line: InputLine<'_>,
    out: &mut K,
    disk: &mut D,
    chooser: &mut C,
    watch: &mut W,
) -> Result<Option<BatchCounts>, Stop>
    requires range { IsInRange terms.now.settings.now }
    requires first { 1 ≤ line.number }
    requires few { length (core_of engine.old).pending < 256 }
    requires ready { CanGoOn (state_of engine.old store.old (D.facts disk.old) (D.faults disk.old) (D.mounts disk.old)) }
    ensures answers { AnswersLine (service_by engine.old (R.choice terms.now.rule.now) terms.now.settings.now) result
        (before (core_of engine.old) line.entry.number) (line_of line.entry)
        (moment_of engine.old (K.held out.old) (C.choices chooser.old) (W.told watch.old))
        (moment_of engine.new (K.held out.new) (C.choices chooser.new) (W.told watch.new)) }
    ensures later { K.faults out.old ≤ K.faults out.new }
    ensures cause { result ≡ Err Stop.WriteFault → Rose (K.faults out.old) (K.faults out.new) }
    ensures few { OnOk result (length (core_of engine.new).pending < 256) }
    ensures settled { IfOk result (λ ran. IsSome ran → fresh_of engine.new ≡ 0) }
    ensures goes_on { GoesOn (R.choice terms.now.rule.now) (disk_failed result)
        (state_of engine.old store.old (D.facts disk.old) (D.faults disk.old) (D.mounts disk.old))
        (state_of engine.new store.new (D.facts disk.new) (D.faults disk.new) (D.mounts disk.new)) }
    ensures logs { Logs (source_of engine.old) (R.choice terms.now.rule.now) (settings_of store.old)
        (ran_by (service_by engine.old (R.choice terms.now.rule.now) terms.now.settings.now)
        (move_at (service_by engine.old (R.choice terms.now.rule.now) terms.now.settings.now)
        (before (core_of engine.old) line.entry.number) (line_of line.entry)))
        (logged_of engine.old) (logged_of engine.new) (D.facts disk.old) (D.facts disk.new) }
    ensures cycle { cycle_of store.new ≡ cycle_of store.old }
    ensures flushes { FlushesBatch result (K.handed out.old) (K.handed out.new) (K.held out.new) }
{
    match take_line(terms.alloc, engine, terms.settings.batch, line) {
        Ok(taken) => answer_taken(terms, engine, store, taken, out, disk, chooser, watch),
        Err(_) => Err(Stop::NoMemory),
    }
}

/// Answers a line that was taken.
fn answer_taken<R: CommitRule, K: Sink, D: Disk, C: Chooser, W: Watch>(
    terms: &Terms<'_, R>,
    engine: &mut Engine,
    store: &mut Option<Store>,
    taken: Taken,
    out: &mut K,
    disk: &mut D,
    chooser: &mut C,
    watch: &mut W,
) -> Result<Option<BatchCounts>, Stop>
    requires range { IsInRange terms.now.settings.now }
    requires waits { taken.is_due ≡ true → 0 < length (core_of engine.old).pending }
    requires ready { CanGoOn (state_of engine.old store.old (D.facts disk.old) (D.faults disk.old) (D.mounts disk.old)) }
    ensures answers { Moves (service_by engine.old (R.choice terms.now.rule.now) terms.now.settings.now) result
        (record { answer = cons_option taken.answer []; core = core_of engine.old; is_due = taken.is_due })
        (moment_of engine.old (K.held out.old) (C.choices chooser.old) (W.told watch.old))
        (moment_of engine.new (K.held out.new) (C.choices chooser.new) (W.told watch.new)) }
    ensures later { K.faults out.old ≤ K.faults out.new }
    ensures cause { result ≡ Err Stop.WriteFault → Rose (K.faults out.old) (K.faults out.new) }
    ensures settled { IfOk result (λ ran. IsSome ran → fresh_of engine.new ≡ 0) }
    ensures goes_on { GoesOn (R.choice terms.now.rule.now) (disk_failed result)
        (state_of engine.old store.old (D.facts disk.old) (D.faults disk.old) (D.mounts disk.old))
        (state_of engine.new store.new (D.facts disk.new) (D.faults disk.new) (D.mounts disk.new)) }
    ensures logs { Logs (source_of engine.old) (R.choice terms.now.rule.now) (settings_of store.old)
        (ran_by (service_by engine.old (R.choice terms.now.rule.now) terms.now.settings.now)
        (record { answer = cons_option taken.answer []; core = core_of engine.old; is_due = taken.is_due }))
        (logged_of engine.old) (logged_of engine.new) (D.facts disk.old) (D.facts disk.new) }
    ensures cycle { cycle_of store.new ≡ cycle_of store.old }
    ensures flushes { FlushesBatch result (K.handed out.old) (K.handed out.new) (K.held out.new) }
{
    let Taken { answer, is_due } = taken;
    if write_answer(out, answer).is_err() {
        return Err(Stop::WriteFault);
    }
    if !is_due {
        return Ok(None);
    }
    line_result(answer_batch(
        terms.alloc,
        engine,
        store,
        terms.settings.parts,
        terms.rule,
        out,
        disk,
        chooser,
        watch,
    ))
}

/// Writes what a line is answered at once.
fn write_answer<K: Sink>(out: &mut K, answer: Option<Bytes>) -> Result<(), Failed>
    ensures whole { OnOk result (Appends (K.held out.old) (K.held out.new) (joined (cons_option answer []))) }
    ensures part { OnErr result (AppendsPrefix (K.held out.old) (K.held out.new) (joined (cons_option answer []))) }
    ensures cause { HasCause (K.faults out.old) (K.faults out.new) result }
    ensures stays { StaysHanded (K.handed out.old) (K.handed out.new) }
{
    match answer {
        Some(line) => write_whole(out, line),
        None => Ok(()),
    }
}

fn write_whole<K: Sink>(out: &mut K, line: Bytes) -> Result<(), Failed>
    ensures whole { OnOk result (Appends (K.held out.old) (K.held out.new) line) }
    ensures part { OnErr result (AppendsPrefix (K.held out.old) (K.held out.new) line) }
    ensures cause { HasCause (K.faults out.old) (K.faults out.new) result }
    ensures stays { StaysHanded (K.handed out.old) (K.handed out.new) }
{
    let wrote = out.write(line.as_slice());
    drop(line);
    wrote
}

/// What a line comes to where a batch was due and came to this.
fn line_result(ran: Result<BatchCounts, Stop>) -> Result<Option<BatchCounts>, Stop>
    ensures { result ≡ line_result ran }
{
    match ran {
        Ok(counts) => Ok(Some(counts)),
        Err(stop) => Err(stop),
    }
}
