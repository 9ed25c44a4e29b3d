//! The whole of a session.

ghost use Rattle.std.specs.Prelude.{◌≡◌, ◌≤◌, ◌<◌, ◌^◌, ◌⊎◌, true, [], length, IfOk, Err};
ghost use Rattle.std.specs.Io.KnownBytes.{Keeps as KeepsBytes};
ghost use Rattle.sf_outside.specs.Causes.{Rose};
ghost use Rattle.block_step.specs.CompiledViews.{IsWhole};
ghost use Rattle.operator_graph.specs.Partitions.{IsParts};
ghost use Rattle.engine.specs.Cores.{CoreFits};
ghost use Rattle.engine.specs.Growth.{GrowsSerially};
ghost use Rattle.engine.specs.EngineViews.{core_of, source_of, tables_of, compiled_of, limit_of, fresh_of, RunsProgram};
ghost use Rattle.session_store.specs.Vocabulary.{logged_of, IsStorable};
ghost use Rattle.session_store.specs.Cycles.{IsInCycle};
ghost use Rattle.session_store.specs.Endings.{KeepsWhere, next_core};
ghost use Rattle.session_store.specs.Stores.{settings_of, Keeps, EndsPast};
ghost use Rattle.session_steps.specs.Vocabulary.{service_of, service_by, state_of, IsInRange, GoesOn, StaysHanded};
ghost use Rattle.batch_session.specs.InTurn.{IsFlushedBy};
ghost use Rattle.batch_session.specs.Served.{view_of, ServedInTurn};
ghost use Rattle.batch_session.specs.SessionStates.{IsReady, WritesOn};
ghost use Rattle.batch_session.specs.Faults.{fault_of, finished, disk_failed, write_failed, unflushed, IsFlushed};

use crate::intake::Intake;
use engine::Engine;
use input_lines::Next;
use operator_graph::Watch;
use reservations::CommitRule;
use session_steps::{Settings, Stop, Tally, Terms};
use session_store::Store;
use sf_outside::{Chooser, Disk, Sink, Source};
use std::alloc::Global;

/// Why a session doesn't serve its whole input.
#[derive(Clone, Copy, PartialEq, Eq, Debug)]
pub enum SessionFault {
    /// The input can't be read. What waits isn't run.
    ReadFault,
    /// The output can't be written or flushed, or the trace can't be written.
    WriteFault,
    /// The store can't be written: the record of a batch, which is neither committed nor answered then, or a
    /// checkpoint behind a batch that is both.
    DiskFault,
    /// More bytes come than the limit.
    InputTooLong,
    /// The history has no place for as many entries as requests wait.
    HistoryFull,
    NoMemory,
}

/// Serves a whole input: each line is answered before more is read than the piece that ends it, a batch
/// runs where one is due, and at the end batches run until nothing waits. A last line without LF counts
/// where it has a byte. Once so many bytes were taken as the limit, one more is asked for, which tells the
/// end from an input that is too long. The output is flushed after each batch, and before the end. The
/// trace has a line for each batch, behind its replies, and isn't flushed. Where there is a store the record of a
/// batch is in it before the batch is committed, and a checkpoint follows behind the line of every so many batches.
pub fn serve<R: CommitRule, S: Source, K: Sink, E: Sink, D: Disk, C: Chooser, W: Watch>(
    alloc: Global,
    engine: &mut Engine,
    store: &mut Option<Store>,
    settings: &Settings,
    input: &mut S,
    out: &mut K,
    err: &mut E,
    disk: &mut D,
    rule: &R,
    chooser: &mut C,
    watch: &mut W,
) -> Result<Tally, SessionFault>
    requires whole { IsWhole (compiled_of engine.old) }
    requires batch { settings.now.batch ≤ 256 }
    requires parts { IsParts settings.now.parts }
    requires few { length (core_of engine.old).pending < 256 }
    requires fits { CoreFits (tables_of engine.old) (core_of engine.old) }
    requires storable { IsStorable (core_of engine.old) (fresh_of engine.old) }
    requires kept { Keeps store.old (source_of engine.old) (logged_of engine.old) (D.facts disk.old) }
    requires in_cycle { IsInCycle store.old 0 }
    requires limit { settings.now.limit ≤ 2 ^ 62 }
    ensures served { ServedInTurn (service_of engine.old (R.choice rule.now) settings.now.batch settings.now.parts) settings.now.trace
        (settings_of store.old) settings.now.limit result
        (view_of engine.old (S.left input.old) (K.held out.old) (K.handed out.old) (E.held err.old) (C.choices chooser.old) (W.told watch.old))
        (view_of engine.new (S.left input.new) (K.held out.new) (K.handed out.new) (E.held err.new) (C.choices chooser.new) (W.told watch.new))
        (logged_of engine.old) (logged_of engine.new) (D.facts disk.old) (D.facts disk.new) store.new }
    ensures handed { IsFlushedBy result (K.handed out.new) (K.held out.new) (K.faults out.old) (K.faults out.new) }
    ensures read { S.faults input.old ≤ S.faults input.new }
    ensures later { K.faults out.old ≤ K.faults out.new }
    ensures later_err { E.faults err.old ≤ E.faults err.new }
    ensures read_cause { result ≡ Err SessionFault.ReadFault → Rose (S.faults input.old) (S.faults input.new) }
    ensures write_cause { result ≡ Err SessionFault.WriteFault → Rose (K.faults out.old) (K.faults out.new) ⊎ Rose (E.faults err.old) (E.faults err.new) }
    ensures runs { RunsProgram engine.new (compiled_of engine.old) (limit_of engine.old) }
    ensures core_fits { CoreFits (tables_of engine.old) (core_of engine.new) }
    ensures grows { GrowsSerially (source_of engine.old) (core_of engine.old) (core_of engine.new) }
    ensures storable { IsStorable (core_of engine.new) (fresh_of engine.new) }
    ensures kept { KeepsWhere (disk_failed result) store.new (source_of engine.new) (logged_of engine.new)
        (next_core (R.choice rule.now) (source_of engine.new) (core_of engine.new)) (D.facts disk.new) }
    ensures in_cycle { IfOk result (λ tally. IsInCycle store.new tally.batches) }
    ensures settings { settings_of store.new ≡ settings_of store.old }
    ensures later_disk { D.faults disk.old ≤ D.faults disk.new }
    ensures disk_cause { disk_failed result ≡ true → Rose (D.faults disk.old) (D.faults disk.new)
        ⊎ EndsPast (R.choice rule.now) store.new (source_of engine.new) (core_of engine.new) (fresh_of engine.new) (D.facts disk.new) }
    ensures mounts { D.mounts disk.new ≡ D.mounts disk.old }
{
    let terms = Terms {
        alloc,
        settings,
        rule,
    };
    let served = answer_all(&terms, engine, store, input, out, err, disk, chooser, watch);
    flushed(out, served)
}

/// Serves the input and then what waits, and doesn't flush at the end.
fn answer_all<R: CommitRule, S: Source, K: Sink, E: Sink, D: Disk, C: Chooser, W: Watch>(
    terms: &Terms<'_, R>,
    engine: &mut Engine,
    store: &mut Option<Store>,
    input: &mut S,
    out: &mut K,
    err: &mut E,
    disk: &mut D,
    chooser: &mut C,
    watch: &mut W,
) -> Result<Tally, SessionFault>
    requires range { IsInRange terms.now.settings.now }
    requires ready { IsReady (state_of engine.old store.old (D.facts disk.old) (D.faults disk.old) (D.mounts disk.old)) 0 }
    requires limit { terms.now.settings.now.limit ≤ 2 ^ 62 }
    ensures serves { ServedInTurn (service_by engine.old (R.choice terms.now.rule.now) terms.now.settings.now) terms.now.settings.now.trace
        (settings_of store.old) terms.now.settings.now.limit result
        (view_of engine.old (S.left input.old) (K.held out.old) (K.handed out.old) (E.held err.old) (C.choices chooser.old) (W.told watch.old))
        (view_of engine.new (S.left input.new) (K.held out.new) (K.handed out.new) (E.held err.new) (C.choices chooser.new) (W.told watch.new))
        (logged_of engine.old) (logged_of engine.new) (D.facts disk.old) (D.facts disk.new) store.new }
    ensures read { S.faults input.old ≤ S.faults input.new }
    ensures read_cause { result ≡ Err SessionFault.ReadFault → Rose (S.faults input.old) (S.faults input.new) }
    ensures in_cycle { IfOk result (λ tally. IsInCycle store.new tally.batches) }
    ensures goes_on { GoesOn (R.choice terms.now.rule.now) (disk_failed result)
        (state_of engine.old store.old (D.facts disk.old) (D.faults disk.old) (D.mounts disk.old))
        (state_of engine.new store.new (D.facts disk.new) (D.faults disk.new) (D.mounts disk.new)) }
    ensures writes { WritesOn (write_failed result) (K.faults out.old) (K.faults out.new) (E.faults err.old) (E.faults err.new) }
{
    let mut intake = Intake::new(terms.alloc, terms.settings.limit);
    'lines: loop {
        match intake.reader.next(input) {
            Ok(Next::Line) => {
                match intake.answer(terms, engine, store, out, err, disk, chooser, watch) {
                    Ok(()) => {}
                    Err(stop) => return Err(fault_of(stop)),
                }
            }
            Ok(Next::End) => {
                let ended = intake.finish(terms, engine, store, out, err, disk, chooser, watch);
                return finished(ended, intake.tally);
            }
            Ok(Next::ReadFault) => return Err(SessionFault::ReadFault),
            Ok(Next::TooLong) => return Err(SessionFault::InputTooLong),
            Err(_) => return Err(SessionFault::NoMemory),
        }
    }
}

/// The tally where the end of the input was served, or why the session stopped at it.
fn finished(ended: Result<(), Stop>, tally: Tally) -> Result<Tally, SessionFault>
    ensures { result ≡ finished ended tally }
{
    match ended {
        Ok(()) => Ok(tally),
        Err(stop) => Err(fault_of(stop)),
    }
}

/// Why a session faults where it stopped.
fn fault_of(stop: Stop) -> SessionFault
    ensures { result ≡ fault_of stop }
{
    match stop {
        Stop::HistoryFull => SessionFault::HistoryFull,
        Stop::NoMemory => SessionFault::NoMemory,
        Stop::DiskFault => SessionFault::DiskFault,
        Stop::WriteFault => SessionFault::WriteFault,
    }
}

/// Flushes the output, unless something couldn't be written before. A fault of the disk stays one.
fn flushed<K: Sink>(out: &mut K, served: Result<Tally, SessionFault>) -> Result<Tally, SessionFault>
    ensures kept { KeepsBytes (K.held out.old) (K.held out.new) }
    ensures flushed { IsFlushed served result }
    ensures handed { IsFlushedBy result (K.handed out.new) (K.held out.new) (K.faults out.old) (K.faults out.new) }
    ensures stays { StaysHanded (K.handed out.old) (K.handed out.new) }
    ensures disk { disk_failed result ≡ disk_failed served }
    ensures later { K.faults out.old ≤ K.faults out.new }
    ensures cause { result ≡ Err SessionFault.WriteFault → (served ≡ Err SessionFault.WriteFault) ⊎ Rose (K.faults out.old) (K.faults out.new) }
{
    if let Err(SessionFault::WriteFault) = served {
        return Err(SessionFault::WriteFault);
    }
    match out.flush() {
        Ok(()) => served,
        Err(_) => unflushed(served),
    }
}

/// What a session came to that couldn't flush its output at the end.
fn unflushed(served: Result<Tally, SessionFault>) -> Result<Tally, SessionFault>
    ensures { result ≡ unflushed served }
{
    match served {
        Err(SessionFault::DiskFault) => Err(SessionFault::DiskFault),
        _ => Err(SessionFault::WriteFault),
    }
}
