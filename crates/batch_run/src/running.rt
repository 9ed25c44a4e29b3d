//! The run of a compiled program.

ghost use Rattle.std.specs.Prelude.{◌≡◌, ◌≤◌, ◌<◌, ◌⊎◌, true, false, length, IfOk, Err};
ghost use Rattle.sf_outside.specs.Causes.{Rose};
ghost use Rattle.block_step.specs.CompiledViews.{IsWhole};
ghost use Rattle.engine.specs.Cores.{Core, CoreFits, empty_core};
ghost use Rattle.engine.specs.Growth.{GrowsSerially};
ghost use Rattle.engine.specs.EngineViews.{core_of, source_of, tables_of, compiled_of, limit_of, fresh_of, RunsProgram};
ghost use Rattle.batch_session.specs.Vocabulary.{logged_of, IsStorable, IsInCycle, KeepsWhere, next_core, settings_of, Keeps, EndsPast};
ghost use Rattle.batch_session.specs.Faults.{disk_failed};
ghost use Rattle.batch_session.specs.InTurn.{IsFlushedBy};
ghost use Rattle.batch_run.specs.RunViews.{rule_of, shown, CanServe};
ghost use Rattle.batch_run.specs.Runs.{RanLogged, Runs};

use crate::rule::RunRule;
use batch_session::{NoDisk, SessionFault, Settings, Store, Tally, serve};
use block_step::Compiled;
use engine::Engine;
use operator_graph::Watch;
use sf_outside::{Chooser, Disk, Sink, Source};
use std::alloc::Global;

/// How a run serves its input.
#[derive(Clone, Copy, PartialEq, Eq, Debug)]
pub struct RunSettings {
    /// How many requests make a batch, 1 to 256.
    pub batch: u32,
    /// How many partitions there are, 1 to 64.
    pub partitions: u32,
    /// The number that the chooser is started with.
    pub schedule: u64,
    /// How many entries the history may have.
    pub history: u32,
    /// How many bytes of input may come.
    pub limit: u64,
    /// Whether the requests of a batch may commit in another order than they came.
    pub reorder: bool,
    /// Whether a line about each batch goes to the error stream.
    pub trace: bool,
}

impl RunSettings {
    ghost use Rattle.std.specs.Prelude.{◌≡◌};
    ghost use Rattle.batch_run.specs.RunViews.{session_settings};

    /// The settings of its session.
    fn session(&self) -> Settings
        ensures { result ≡ session_settings self.now }
    {
        Settings {
            batch: self.batch,
            parts: self.partitions,
            limit: self.limit,
            trace: self.trace,
        }
    }
}

/// An engine, and the store that keeps what it commits, where it has one.
#[derive(Drop)]
pub struct StoredEngine {
    pub engine: Engine,
    pub store: Option<Store>,
}

/// Runs a program on an input, from nothing committed on and without a store. The chooser is started once, the
/// watch is told the graph once, and then the batches run on it. Where memory is wanted before that, nothing is
/// done.
pub fn run_program<S: Source, K: Sink, E: Sink, C: Chooser, W: Watch>(
    alloc: Global,
    compiled: Compiled,
    settings: &RunSettings,
    input: &mut S,
    out: &mut K,
    err: &mut E,
    chooser: &mut C,
    watch: &mut W,
) -> Result<Tally, SessionFault>
    requires whole { IsWhole compiled }
    requires serves { CanServe settings.now }
    ensures runs { (last : Core) × Runs compiled settings.now empty_core last result
        (shown (S.left input.old) (K.held out.old) (K.handed out.old) (E.held err.old) (C.choices chooser.old) (W.told watch.old))
        (shown (S.left input.new) (K.held out.new) (K.handed out.new) (E.held err.new) (C.choices chooser.new) (W.told watch.new))
        (IsFlushedBy result (K.handed out.new) (K.held out.new) (K.faults out.old) (K.faults out.new)) }
    ensures later_err { E.faults err.old ≤ E.faults err.new }
    ensures read_cause { result ≡ Err SessionFault.ReadFault → Rose (S.faults input.old) (S.faults input.new) }
    ensures write_cause { result ≡ Err SessionFault.WriteFault → Rose (K.faults out.old) (K.faults out.new) ⊎ Rose (E.faults err.old) (E.faults err.new) }
    ensures no_disk { disk_failed result ≡ false }
{
    let Ok(engine) = Engine::new(alloc, compiled, settings.history) else {
        return Err(SessionFault::NoMemory);
    };
    let mut stored = StoredEngine {
        engine,
        store: None,
    };
    let mut disk = NoDisk;
    let ended = run_opened(
        alloc,
        &mut stored,
        settings,
        input,
        out,
        err,
        &mut disk,
        chooser,
        watch,
    );
    drop(stored);
    ended
}

/// Runs the program of an engine on an input, from the engine's core on. Where the engine has a store it knows that core
/// but for the requests that came since the last batch. The chooser is started once, the watch is told the graph
/// once, and then the batches run on it.
pub fn run_opened<S: Source, K: Sink, E: Sink, D: Disk, C: Chooser, W: Watch>(
    alloc: Global,
    stored: &mut StoredEngine,
    settings: &RunSettings,
    input: &mut S,
    out: &mut K,
    err: &mut E,
    disk: &mut D,
    chooser: &mut C,
    watch: &mut W,
) -> Result<Tally, SessionFault>
    requires whole { IsWhole (compiled_of stored.old.engine) }
    requires serves { CanServe settings.now }
    requires history { limit_of stored.old.engine ≡ settings.now.history }
    requires few { length (core_of stored.old.engine).pending < 256 }
    requires fits { CoreFits (tables_of stored.old.engine) (core_of stored.old.engine) }
    requires storable { IsStorable (core_of stored.old.engine) (fresh_of stored.old.engine) }
    requires kept { Keeps stored.old.store (source_of stored.old.engine) (logged_of stored.old.engine) (D.facts disk.old) }
    requires in_cycle { IsInCycle stored.old.store 0 }
    ensures runs { RanLogged (compiled_of stored.old.engine) settings.now (settings_of stored.old.store) (core_of stored.old.engine) (core_of stored.new.engine) result
        (shown (S.left input.old) (K.held out.old) (K.handed out.old) (E.held err.old) (C.choices chooser.old) (W.told watch.old))
        (shown (S.left input.new) (K.held out.new) (K.handed out.new) (E.held err.new) (C.choices chooser.new) (W.told watch.new))
        (logged_of stored.old.engine) (logged_of stored.new.engine) (D.facts disk.old) (D.facts disk.new) stored.new.store }
    ensures handed { IsFlushedBy result (K.handed out.new) (K.held out.new) (K.faults out.old) (K.faults out.new) }
    ensures later_err { E.faults err.old ≤ E.faults err.new }
    ensures read_cause { result ≡ Err SessionFault.ReadFault → Rose (S.faults input.old) (S.faults input.new) }
    ensures write_cause { result ≡ Err SessionFault.WriteFault → Rose (K.faults out.old) (K.faults out.new) ⊎ Rose (E.faults err.old) (E.faults err.new) }
    ensures program { RunsProgram stored.new.engine (compiled_of stored.old.engine) (limit_of stored.old.engine) }
    ensures core_fits { CoreFits (tables_of stored.old.engine) (core_of stored.new.engine) }
    ensures grows { GrowsSerially (source_of stored.old.engine) (core_of stored.old.engine) (core_of stored.new.engine) }
    ensures storable { IsStorable (core_of stored.new.engine) (fresh_of stored.new.engine) }
    ensures kept { KeepsWhere (disk_failed result) stored.new.store (source_of stored.new.engine) (logged_of stored.new.engine)
        (next_core (rule_of settings.now) (source_of stored.new.engine) (core_of stored.new.engine)) (D.facts disk.new) }
    ensures in_cycle { IfOk result (λ tally. IsInCycle stored.new.store tally.batches) }
    ensures settings { settings_of stored.new.store ≡ settings_of stored.old.store }
    ensures later_disk { D.faults disk.old ≤ D.faults disk.new }
    ensures disk_cause { disk_failed result ≡ true → Rose (D.faults disk.old) (D.faults disk.new)
        ⊎ EndsPast (rule_of settings.now) stored.new.store (source_of stored.new.engine) (core_of stored.new.engine) (fresh_of stored.new.engine) (D.facts disk.new) }
    ensures mounts { D.mounts disk.new ≡ D.mounts disk.old }
{
    chooser.start(settings.schedule);
    watch.graph(stored.engine.compiled().graph());
    serve(
        alloc,
        &mut stored.engine,
        &mut stored.store,
        &settings.session(),
        input,
        out,
        err,
        disk,
        &RunRule {
            reorder: settings.reorder,
        },
        chooser,
        watch,
    )
}
