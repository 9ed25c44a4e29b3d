//! Checking a file's program.

ghost use Rattle.operator_graph.specs.Turns.{Outside};
ghost use Rattle.stateflow_cli.specs.CheckLine.{IsCheckLine};
ghost use Rattle.stateflow_cli.specs.Devices.{StoreDisk, Input, Output, devices, sink};
ghost use Rattle.stateflow_cli.specs.Endings.{ReportEnds};

use crate::ending::Ending;
use crate::loading::{LoadStop, count};
use crate::printing::print_counts;
use sf_outside::{Failed, Files, Sink};
use std::alloc::Global;

/// Checks the file's program, and prints how many classes and methods it has. The other devices are
/// no matter.
pub(crate) fn check_file<F: Files, K: Sink>(
    alloc: Global,
    file: &str,
    files: &mut F,
    out: &mut K,
) -> Ending
    ensures { (input : Input) (err : Output) (outside : Outside) (disk : StoreDisk) → ReportEnds IsCheckLine file.now
        (devices (F.content files.old) (F.faults files.old) input (sink (K.held out.old) (K.handed out.old) (K.faults out.old)) err outside disk)
        (devices (F.content files.new) (F.faults files.new) input (sink (K.held out.new) (K.handed out.new) (K.faults out.new)) err outside disk)
        result }
{
    let counts = match count(alloc, files, file) {
        Ok(counts) => counts,
        Err(LoadStop::Refused(fault)) => return Ending::Refused(fault),
        Err(LoadStop::FileFault) => return Ending::FileFault,
        Err(LoadStop::NoMemory) => return Ending::NoMemory,
    };
    match print_counts(out, counts) {
        Ok(()) => Ending::Printed,
        Err(Failed) => Ending::Unprinted,
    }
}
