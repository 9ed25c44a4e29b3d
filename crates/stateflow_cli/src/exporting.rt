//! Exporting a store: the lines of its history, by the program that it is kept for.

ghost use Rattle.sf_outside.specs.Gains.{Wrote, Counts};
ghost use Rattle.sf_outside.specs.Handing.{IsHandedOn};
ghost use Rattle.std.specs.Prelude.{◌≡◌, OnOk};
ghost use Rattle.engine.specs.EngineViews.{core_of, source_of};
ghost use Rattle.export_laws.specs.Exports.{history_lines};
ghost use Rattle.operator_graph.specs.Turns.{Outside};
ghost use Rattle.stateflow_cli.specs.Devices.{Input, Output, devices, sink, store_disk};
ghost use Rattle.stateflow_cli.specs.ExportEnds.{ExportEnds, export_ending};

use crate::ending::{Ending, Finding};
use crate::loading::{CompiledText, LoadStop, load_with_text};
use batch_run::SessionFault;
use history_export::export;
use sf_outside::{Disk, Files, Sink, WriteStop};
use std::alloc::Global;
use store_opening::{FoundStore, OpenSettings, OpenedStore, find_store};

/// Writes the history of a store that was found.
fn export_opened<K: Sink>(alloc: Global, opened: OpenedStore, out: &mut K) -> Result<(), WriteStop>
    ensures wrote { Wrote result (K.held out.old) (K.held out.new) (history_lines (source_of opened.engine) (core_of opened.engine).history) }
    ensures counts { Counts (K.faults out.old) (K.faults out.new) result }
    ensures handed { OnOk result (IsHandedOn (K.handed out.new) (K.held out.new)) }
{
    let OpenedStore { engine, store } = opened;
    let written = export(alloc, &engine, out);
    drop(engine);
    drop(store);
    written
}

/// How the writing of lines ends the call.
fn ending_of(written: Result<(), WriteStop>) -> Ending
    ensures { result ≡ export_ending written }
{
    match written {
        Ok(()) => Ending::Printed,
        Err(WriteStop::NoMemory) => Ending::Stopped(SessionFault::NoMemory),
        Err(WriteStop::WriteFault) => Ending::Unprinted,
    }
}

/// Compiles the file's program, looks for its store in the folder of this name, and writes the lines of the store's history. Nothing of the folder is written.
pub(crate) fn export_file<F: Files, K: Sink, D: Disk>(
    alloc: Global,
    file: &str,
    name: &str,
    files: &mut F,
    out: &mut K,
    disk: &mut D,
) -> Ending
    ensures { (input : Input) (err : Output) (outside : Outside) → ExportEnds file.now name.now
        (devices (F.content files.old) (F.faults files.old) input (sink (K.held out.old) (K.handed out.old) (K.faults out.old)) err outside
        (store_disk (D.found disk.old) (D.faults disk.old) (D.mounts disk.old)))
        (devices (F.content files.new) (F.faults files.new) input (sink (K.held out.new) (K.handed out.new) (K.faults out.new)) err outside
        (store_disk (D.found disk.new) (D.faults disk.new) (D.mounts disk.new)))
        (D.facts disk.old) (D.facts disk.new) result }
{
    let CompiledText { compiled, text } = match load_with_text(alloc, files, file) {
        Ok(loaded) => loaded,
        Err(LoadStop::Refused(fault)) => return Ending::Refused(fault),
        Err(LoadStop::FileFault) => return Ending::FileFault,
        Err(LoadStop::NoMemory) => return Ending::NoMemory,
    };
    let settings = OpenSettings {
        program: text,
        limit: u32::MAX,
        every: 1,
    };
    match find_store(alloc, disk, name, compiled, settings) {
        Ok(FoundStore::Old(opened)) => ending_of(export_opened(alloc, opened, out)),
        Ok(FoundStore::New { compiled, settings }) => {
            drop(compiled);
            drop(settings);
            Ending::Found(Finding::NoStore)
        }
        Err(stop) => Ending::Unopened(stop),
    }
}
