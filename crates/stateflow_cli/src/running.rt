//! Running a file's program on the input by the direct interpreter.

ghost use Rattle.std.specs.Prelude.{◌≡◌};
ghost use Rattle.operator_graph.specs.Turns.{Outside};
ghost use Rattle.stateflow_cli.specs.Devices.{StoreDisk, Output, devices, source, sink};
ghost use Rattle.stateflow_cli.specs.Endings.{LocalEnds, longest_input, local_ending};

use crate::ending::Ending;
use crate::loading::{LoadStop, load};
use batch_run::SessionFault;
use session::{InputEnd, SessionStop, serve};
use sf_outside::{Files, Sink, Source};
use std::alloc::Global;

/// The most bytes of input that a call takes in.
pub(crate) const LONGEST_INPUT: u64 = 1_099_511_627_776;

/// How many entries the history may have.
const LOCAL_HISTORY: u32 = 16_777_216;

/// How a session that each request is run in at once ends the call.
fn ending_of(ended: Result<InputEnd, SessionStop>) -> Ending
    ensures { result ≡ local_ending ended }
{
    match ended {
        Ok(InputEnd::End) => Ending::Served,
        Ok(InputEnd::ReadFault) => Ending::Stopped(SessionFault::ReadFault),
        Ok(InputEnd::TooLong) => Ending::Stopped(SessionFault::InputTooLong),
        Err(SessionStop::HistoryFull) => Ending::Stopped(SessionFault::HistoryFull),
        Err(SessionStop::NoMemory) => Ending::Stopped(SessionFault::NoMemory),
        Err(SessionStop::WriteFault) => Ending::Stopped(SessionFault::WriteFault),
    }
}

/// Runs the file's program on the input, each request at once. What the error stream holds, and what is
/// chosen and told, is no matter.
pub(crate) fn interpret_file<F: Files, S: Source, K: Sink>(
    alloc: Global,
    file: &str,
    files: &mut F,
    input: &mut S,
    out: &mut K,
) -> Ending
    ensures { (err : Output) (outside : Outside) (disk : StoreDisk) → LocalEnds longest_input file.now
        (devices (F.content files.old) (F.faults files.old) (source (S.left input.old) (S.faults input.old))
        (sink (K.held out.old) (K.handed out.old) (K.faults out.old)) err outside disk)
        (devices (F.content files.new) (F.faults files.new) (source (S.left input.new) (S.faults input.new))
        (sink (K.held out.new) (K.handed out.new) (K.faults out.new)) err outside disk)
        result }
{
    let program = match load(alloc, files, file) {
        Ok(program) => program,
        Err(LoadStop::Refused(fault)) => return Ending::Refused(fault),
        Err(LoadStop::FileFault) => return Ending::FileFault,
        Err(LoadStop::NoMemory) => return Ending::NoMemory,
    };
    ending_of(serve(alloc, LONGEST_INPUT, LOCAL_HISTORY, &program, input, out))
}
