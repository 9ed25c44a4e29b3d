//! Running a file's compiled program on the input, in batches.

ghost use Rattle.std.specs.Prelude.{◌≡◌, ◌≤◌, ◌⊎◌, length, None, Some, Err};
ghost use Rattle.sf_outside.specs.Causes.{Rose};
ghost use Rattle.sf_outside.specs.DiskModel.{untold};
ghost use Rattle.block_step.specs.CompiledViews.{IsWhole};
ghost use Rattle.engine.specs.Cores.{CoreFits};
ghost use Rattle.engine.specs.EngineViews.{core_of, tables_of, compiled_of, limit_of, fresh_of};
ghost use Rattle.session_store.specs.Vocabulary.{IsStorable};
ghost use Rattle.store_opening.specs.OpenedStores.{KeepsOpened};
ghost use Rattle.batch_run.specs.RunViews.{CanServe, shown};
ghost use Rattle.batch_run.specs.Vocabulary.{IsFlushedBy};
ghost use Rattle.command_words.specs.Commands.{settings_by};
ghost use Rattle.stateflow_cli.specs.Devices.{StoreDisk, devices, source, sink, outside};
ghost use Rattle.stateflow_cli.specs.Endings.{RunEnds, longest_input, settings_for, run_ending};
ghost use Rattle.stateflow_cli.specs.StoredRuns.{RanOpened};
ghost use Rattle.stateflow_cli.specs.Words.{AreInRange};

use crate::ending::Ending;
use crate::loading::{CompiledText, LoadStop, load_compiled, load_with_text};
use crate::running::LONGEST_INPUT;
use crate::showing::{Call, Shows};
use batch_run::{RunSettings, SessionFault, StoredEngine, Tally, run_opened, run_program};
use command_words::RunWords;
use operator_graph::Watch;
use sf_outside::{Chooser, Disk, Files, Sink, Source};
use std::alloc::Global;
use store_opening::{OpenSettings, OpenedStore, open_store};

/// The settings that words give.
fn settings_of(words: RunWords<'_>) -> RunSettings
    ensures { result ≡ settings_for longest_input (settings_by words.entry) }
{
    RunSettings {
        batch: words.batch,
        partitions: words.partitions,
        schedule: words.schedule,
        history: words.history,
        limit: LONGEST_INPUT,
        reorder: words.reorder,
        trace: words.trace,
    }
}

/// How a run ends the call.
fn ending_of(ended: Result<Tally, SessionFault>) -> Ending
    ensures { result ≡ run_ending ended }
{
    match ended {
        Ok(_) => Ending::Served,
        Err(fault) => Ending::Stopped(fault),
    }
}

/// Compiles the file's program, and runs it on the input in batches, from nothing committed on. The disk is no matter.
fn run_alone<F: Files, S: Source, K: Sink, E: Sink, C: Chooser, W: Watch>(
    alloc: Global,
    file: &str,
    words: RunWords<'_>,
    files: &mut F,
    input: &mut S,
    out: &mut K,
    err: &mut E,
    chooser: &mut C,
    watch: &mut W,
) -> Ending
    requires in_range { AreInRange (settings_by words) }
    requires alone { words.store ≡ None }
    ensures { (disk : StoreDisk) → RunEnds longest_input file.now (settings_by words.entry)
        (devices (F.content files.old) (F.faults files.old) (source (S.left input.old) (S.faults input.old))
        (sink (K.held out.old) (K.handed out.old) (K.faults out.old)) (sink (E.held err.old) (E.handed err.old) (E.faults err.old))
        (outside (C.choices chooser.old) (W.told watch.old)) disk)
        (devices (F.content files.new) (F.faults files.new) (source (S.left input.new) (S.faults input.new))
        (sink (K.held out.new) (K.handed out.new) (K.faults out.new)) (sink (E.held err.new) (E.handed err.new) (E.faults err.new))
        (outside (C.choices chooser.new) (W.told watch.new)) disk)
        untold untold result }
{
    let compiled = match load_compiled(alloc, files, file) {
        Ok(compiled) => compiled,
        Err(LoadStop::Refused(fault)) => return Ending::Refused(fault),
        Err(LoadStop::FileFault) => return Ending::FileFault,
        Err(LoadStop::NoMemory) => return Ending::NoMemory,
    };
    ending_of(run_program(
        alloc,
        compiled,
        &settings_of(words),
        input,
        out,
        err,
        chooser,
        watch,
    ))
}

/// Runs the program of a store that was opened, from the store's core on.
fn run_on<S: Source, K: Sink, E: Sink, D: Disk, C: Chooser, W: Watch>(
    alloc: Global,
    opened: OpenedStore,
    settings: &RunSettings,
    input: &mut S,
    out: &mut K,
    err: &mut E,
    disk: &mut D,
    chooser: &mut C,
    watch: &mut W,
) -> Result<Tally, SessionFault>
    requires whole { IsWhole (compiled_of opened.engine) }
    requires serves { CanServe settings.now }
    requires history { limit_of opened.engine ≡ settings.now.history }
    requires fresh { fresh_of opened.engine ≡ 0 }
    requires fits { CoreFits (tables_of opened.engine) (core_of opened.engine) }
    requires storable { IsStorable (core_of opened.engine) 0 }
    requires few { length (core_of opened.engine).pending ≤ 255 }
    requires since { opened.store.since ≡ 0 }
    requires first { opened.store.settings.opened ≡ opened.store.position.epoch }
    requires kept { KeepsOpened (D.facts disk.old) opened }
    ensures ran { RanOpened opened settings.now result
        (shown (S.left input.old) (K.held out.old) (K.handed out.old) (E.held err.old) (C.choices chooser.old) (W.told watch.old))
        (shown (S.left input.new) (K.held out.new) (K.handed out.new) (E.held err.new) (C.choices chooser.new) (W.told watch.new))
        (D.faults disk.old) (D.faults disk.new) (D.facts disk.old) (D.facts disk.new) }
    ensures handed { IsFlushedBy result (K.handed out.new) (K.held out.new) (K.faults out.old) (K.faults out.new) }
    ensures later_err { E.faults err.old ≤ E.faults err.new }
    ensures read_cause { result ≡ Err SessionFault.ReadFault → Rose (S.faults input.old) (S.faults input.new) }
    ensures write_cause { result ≡ Err SessionFault.WriteFault → Rose (K.faults out.old) (K.faults out.new) ⊎ Rose (E.faults err.old) (E.faults err.new) }
    ensures later_disk { D.faults disk.old ≤ D.faults disk.new }
    ensures mounts { D.mounts disk.new ≡ D.mounts disk.old }
{
    let OpenedStore { engine, store } = opened;
    let mut stored = StoredEngine {
        engine,
        store: Some(store),
    };
    let ended = run_opened(
        alloc,
        &mut stored,
        settings,
        input,
        out,
        err,
        disk,
        chooser,
        watch,
    );
    drop(stored);
    ended
}

/// Compiles the file's program, opens the store in the folder of this name, and runs the program on the input in batches, from the store's core
/// on.
fn run_stored<F: Files, S: Source, K: Sink, E: Sink, D: Disk, C: Chooser, W: Watch>(
    alloc: Global,
    file: &str,
    name: &str,
    words: RunWords<'_>,
    files: &mut F,
    input: &mut S,
    out: &mut K,
    err: &mut E,
    disk: &mut D,
    chooser: &mut C,
    watch: &mut W,
) -> Ending
    requires in_range { AreInRange (settings_by words) }
    requires named { (settings_by words).store ≡ Some name.now }
    ensures { RunEnds longest_input file.now (settings_by words.entry)
        (⟦<Call as Shows<F, S, K, E, D, C, W>>⟧.shown files.old input.old out.old err.old disk.old chooser.old watch.old)
        (⟦<Call as Shows<F, S, K, E, D, C, W>>⟧.shown files.new input.new out.new err.new disk.new chooser.new watch.new)
        (D.facts disk.old) (D.facts disk.new) result }
{
    let CompiledText { compiled, text } = match load_with_text(alloc, files, file) {
        Ok(loaded) => loaded,
        Err(LoadStop::Refused(fault)) => return Ending::Refused(fault),
        Err(LoadStop::FileFault) => return Ending::FileFault,
        Err(LoadStop::NoMemory) => return Ending::NoMemory,
    };
    let settings = OpenSettings {
        program: text,
        limit: words.history,
        every: words.every,
    };
    match open_store(alloc, disk, name, compiled, settings) {
        Ok(opened) => ending_of(run_on(
            alloc,
            opened,
            &settings_of(words),
            input,
            out,
            err,
            disk,
            chooser,
            watch,
        )),
        Err(stop) => Ending::Unopened(stop),
    }
}

/// Compiles the file's program, and runs it on the input in batches: from the core of the store that is named on, or without one from nothing
/// committed on.
pub(crate) fn run_file<F: Files, S: Source, K: Sink, E: Sink, D: Disk, C: Chooser, W: Watch>(
    alloc: Global,
    file: &str,
    words: RunWords<'_>,
    files: &mut F,
    input: &mut S,
    out: &mut K,
    err: &mut E,
    disk: &mut D,
    chooser: &mut C,
    watch: &mut W,
) -> Ending
    requires in_range { AreInRange (settings_by words) }
    ensures ends { RunEnds longest_input file.now (settings_by words.entry)
        (⟦<Call as Shows<F, S, K, E, D, C, W>>⟧.shown files.old input.old out.old err.old disk.old chooser.old watch.old)
        (⟦<Call as Shows<F, S, K, E, D, C, W>>⟧.shown files.new input.new out.new err.new disk.new chooser.new watch.new)
        (D.facts disk.old) (D.facts disk.new) result }
    ensures untouched { (settings_by words.entry).store ≡ None → disk.new ≡ disk.old }
{
    match words.store {
        None => run_alone(alloc, file, words, files, input, out, err, chooser, watch),
        Some(name) => run_stored(
            alloc, file, name, words, files, input, out, err, disk, chooser, watch,
        ),
    }
}
