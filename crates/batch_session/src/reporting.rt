//! What follows a batch once its replies are written: it is counted, traced where that is asked for, and a checkpoint is made where one is due.

ghost use Rattle.std.specs.Prelude.{◌≡◌, ◌≢◌, ◌≤◌, true, List, [], ◌∷◌, OnOk, OnErr, Err};
ghost use Rattle.std.specs.Io.KnownBytes.{Appends};
ghost use Rattle.sf_outside.specs.Bytes.{AppendsPrefix};
ghost use Rattle.sf_outside.specs.Causes.{HasCause, Rose};
ghost use Rattle.serial_order.specs.ConflictFree.{Access};
ghost use Rattle.reservations.specs.CommitRules.{Chosen};
ghost use Rattle.engine.specs.EngineViews.{source_of, fresh_of};
ghost use Rattle.session_store.specs.Vocabulary.{logged_of};
ghost use Rattle.session_store.specs.Cycles.{cycle_of};
ghost use Rattle.session_store.specs.Stores.{settings_of};
ghost use Rattle.session_steps.specs.Vocabulary.{state_of, disk_failed, GoesOn, Logs};
ghost use Rattle.session_steps.specs.StepLaws.{TracedAs};
ghost use Rattle.session_steps.specs.Traces.{with_batch, trace_text};
ghost use Rattle.batch_session.specs.SessionStates.{IsReady};

use engine::Engine;
use session_steps::{BatchCounts, Settings, Stop, Tally, write_trace};
use session_store::{Store, batch_ended};
use sf_outside::{Disk, Failed, Sink};

/// Counts a batch that is answered and writes its line where batches are traced. Then it makes a checkpoint
/// where one is due. It takes no memory, and flushes nothing.
pub(crate) fn end_batch<E: Sink, D: Disk>(
    engine: &Engine,
    store: &mut Option<Store>,
    settings: &Settings,
    err: &mut E,
    disk: &mut D,
    tally: &mut Tally,
    counts: BatchCounts,
) -> Result<(), Stop>
    requires ready { IsReady (state_of engine.now store.old (D.facts disk.old) (D.faults disk.old) (D.mounts disk.old)) tally.old.batches }
    requires fresh { fresh_of engine.now ≡ 0 }
    ensures counted { tally.new ≡ with_batch tally.old counts }
    ensures traced { TracedAs result (E.held err.old) (E.held err.new) (trace_text settings.now.trace tally.old (counts ∷ [])) }
    ensures placed { result ≢ Err Stop.HistoryFull }
    ensures memory { result ≢ Err Stop.NoMemory }
    ensures asked { result ≡ Err Stop.WriteFault → settings.now.trace ≡ true }
    ensures cycle { result ≡ Err Stop.WriteFault → cycle_of store.new ≡ cycle_of store.old }
    ensures later_err { E.faults err.old ≤ E.faults err.new }
    ensures cause { result ≡ Err Stop.WriteFault → Rose (E.faults err.old) (E.faults err.new) }
    ensures logs { (rule : List Access → Chosen) → Logs (source_of engine.now) rule (settings_of store.old) []
        (logged_of engine.now) (logged_of engine.now) (D.facts disk.old) (D.facts disk.new) }
    ensures ready { OnOk result (IsReady (state_of engine.now store.new (D.facts disk.new) (D.faults disk.new) (D.mounts disk.new)) tally.new.batches) }
    ensures goes_on { (rule : List Access → Chosen) → GoesOn rule (disk_failed result)
        (state_of engine.now store.old (D.facts disk.old) (D.faults disk.old) (D.mounts disk.old))
        (state_of engine.now store.new (D.facts disk.new) (D.faults disk.new) (D.mounts disk.new)) }
{
    match report(err, settings.trace, tally, counts) {
        Ok(()) => match batch_ended(disk, store, engine) {
            Ok(()) => Ok(()),
            Err(_) => Err(Stop::DiskFault),
        },
        Err(_) => Err(Stop::WriteFault),
    }
}

/// Counts a batch, and writes its line where batches are traced.
fn report<E: Sink>(
    err: &mut E,
    traces: bool,
    tally: &mut Tally,
    counts: BatchCounts,
) -> Result<(), Failed>
    ensures counted { tally.new ≡ with_batch tally.old counts }
    ensures whole { OnOk result (Appends (E.held err.old) (E.held err.new) (trace_text traces tally.old (counts ∷ []))) }
    ensures part { OnErr result (AppendsPrefix (E.held err.old) (E.held err.new) (trace_text traces tally.old (counts ∷ []))) }
    ensures asked { OnErr result (traces ≡ true) }
    ensures cause { HasCause (E.faults err.old) (E.faults err.new) result }
{
    tally.count(counts);
    if !traces {
        return Ok(());
    }
    write_trace(err, tally.batches, counts)
}
