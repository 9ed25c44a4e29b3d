//! Telling an ending: its line, written without memory, and its status.

ghost use Rattle.std.specs.Prelude.{◌≡◌, ◌≤◌, OnOk, OnErr, decimal};
ghost use Rattle.std.specs.Io.KnownBytes.{Appends};
ghost use Rattle.sf_outside.specs.Bytes.{AppendsPrefix};
ghost use Rattle.sf_outside.specs.Causes.{HasCause};
ghost use Rattle.stateflow_cli.specs.StatusLines.{status_of, line_of, stop_line, placed_line, fault_line, file_name, bad_store_line, open_line, numbered_line, finding_line};
ghost use Rattle.stateflow_cli.specs.Telling.{Told};

use crate::ending::{Ending, Finding};
use crate::fault::fault_name_of;
use batch_run::{SessionFault, write_pieces};
use itoa::Buffer;
use program_text::ProgramFault;
use sf_outside::{Failed, Sink, StoreFile};
use store_opening::OpenStop;

/// The status where an output can't be written.
const WRITE_FAULT: u8 = 4;

const USAGE_LINE: &[u8] =
    b"usage: stateflow check FILE | compile FILE | local FILE | run FILE [options] | gen [options] | audit FILE RUN | export FILE --store DIR\n";

const READ_FAULT_LINE: &[u8] = b"stateflow: read fault\n";

const WRITE_FAULT_LINE: &[u8] = b"stateflow: write fault\n";

const NO_MEMORY_LINE: &[u8] = b"stateflow: out of memory\n";

const TOO_LONG_LINE: &[u8] = b"stateflow: input too long\n";

const HISTORY_FULL_LINE: &[u8] = b"stateflow: history full\n";

const DISK_FAULT_LINE: &[u8] = b"stateflow: disk fault\n";

const NO_STORE_LINE: &[u8] = b"stateflow: no store\n";

const OTHER_PROGRAM_LINE: &[u8] = b"stateflow: the store holds another program\n";

/// Says what a file's fault is, where the digits of its line and column are given.
fn say_placed<E: Sink>(
    err: &mut E,
    file: &[u8],
    line: &[u8],
    col: &[u8],
    kind: &[u8],
) -> Result<(), Failed>
    ensures whole { OnOk result (Appends (E.held err.old) (E.held err.new) (placed_line file.now line.now col.now kind.now)) }
    ensures part { OnErr result (AppendsPrefix (E.held err.old) (E.held err.new) (placed_line file.now line.now col.now kind.now)) }
    ensures cause { HasCause (E.faults err.old) (E.faults err.new) result }
{
    write_pieces(
        err,
        &[
            b"stateflow: ",
            file,
            b":",
            line,
            b":",
            col,
            b": ",
            kind,
            b"\n",
        ],
    )
}

fn say_fault<E: Sink>(err: &mut E, file: &str, fault: ProgramFault) -> Result<(), Failed>
    ensures whole { OnOk result (Appends (E.held err.old) (E.held err.new) (fault_line file.now fault)) }
    ensures part { OnErr result (AppendsPrefix (E.held err.old) (E.held err.new) (fault_line file.now fault)) }
    ensures cause { HasCause (E.faults err.old) (E.faults err.new) result }
{
    let place = fault.place();
    let mut line = Buffer::new();
    let mut col = Buffer::new();
    say_placed(
        err,
        file.as_bytes(),
        line.format(place.line).as_bytes(),
        col.format(place.col).as_bytes(),
        fault_name_of(fault),
    )
}

fn say_stop<E: Sink>(err: &mut E, stop: SessionFault) -> Result<(), Failed>
    ensures whole { OnOk result (Appends (E.held err.old) (E.held err.new) (stop_line stop)) }
    ensures part { OnErr result (AppendsPrefix (E.held err.old) (E.held err.new) (stop_line stop)) }
    ensures cause { HasCause (E.faults err.old) (E.faults err.new) result }
{
    match stop {
        SessionFault::ReadFault => err.write(READ_FAULT_LINE),
        SessionFault::WriteFault => err.write(WRITE_FAULT_LINE),
        SessionFault::InputTooLong => err.write(TOO_LONG_LINE),
        SessionFault::HistoryFull => err.write(HISTORY_FULL_LINE),
        SessionFault::NoMemory => err.write(NO_MEMORY_LINE),
        SessionFault::DiskFault => err.write(DISK_FAULT_LINE),
    }
}

/// The name of a file of a store.
fn name_of_file(file: StoreFile) -> &'static [u8]
    ensures { result.now ≡ file_name file }
{
    match file {
        StoreFile::Log0 => b"log0",
        StoreFile::Log1 => b"log1",
        StoreFile::Snap0 => b"snap0",
        StoreFile::Snap1 => b"snap1",
        StoreFile::Hist => b"hist",
    }
}

/// Says where a store is bad, where the digits of the place are given.
fn say_bad_file<E: Sink>(err: &mut E, file: &[u8], place: &[u8]) -> Result<(), Failed>
    ensures whole { OnOk result (Appends (E.held err.old) (E.held err.new) (bad_store_line file.now place.now)) }
    ensures part { OnErr result (AppendsPrefix (E.held err.old) (E.held err.new) (bad_store_line file.now place.now)) }
    ensures cause { HasCause (E.faults err.old) (E.faults err.new) result }
{
    write_pieces(
        err,
        &[b"stateflow: bad store: ", file, b" at ", place, b"\n"],
    )
}

fn say_bad_store<E: Sink>(err: &mut E, file: StoreFile, at: u64) -> Result<(), Failed>
    ensures whole { OnOk result (Appends (E.held err.old) (E.held err.new) (bad_store_line (file_name file) (decimal at))) }
    ensures part { OnErr result (AppendsPrefix (E.held err.old) (E.held err.new) (bad_store_line (file_name file) (decimal at))) }
    ensures cause { HasCause (E.faults err.old) (E.faults err.new) result }
{
    let mut place = Buffer::new();
    say_bad_file(err, name_of_file(file), place.format(at).as_bytes())
}

fn say_unopened<E: Sink>(err: &mut E, stop: OpenStop) -> Result<(), Failed>
    ensures whole { OnOk result (Appends (E.held err.old) (E.held err.new) (open_line stop)) }
    ensures part { OnErr result (AppendsPrefix (E.held err.old) (E.held err.new) (open_line stop)) }
    ensures cause { HasCause (E.faults err.old) (E.faults err.new) result }
{
    match stop {
        OpenStop::DiskFault => err.write(DISK_FAULT_LINE),
        OpenStop::Bad { file, at } => say_bad_store(err, file, at),
        OpenStop::OtherProgram => err.write(OTHER_PROGRAM_LINE),
        OpenStop::NoMemory => err.write(NO_MEMORY_LINE),
    }
}

/// Says a number, where its digits are given.
fn say_digits<E: Sink>(err: &mut E, what: &[u8], digits: &[u8]) -> Result<(), Failed>
    ensures whole { OnOk result (Appends (E.held err.old) (E.held err.new) (numbered_line what.now digits.now)) }
    ensures part { OnErr result (AppendsPrefix (E.held err.old) (E.held err.new) (numbered_line what.now digits.now)) }
    ensures cause { HasCause (E.faults err.old) (E.faults err.new) result }
{
    write_pieces(err, &[b"stateflow: ", what, digits, b"\n"])
}

fn say_number<E: Sink>(err: &mut E, what: &[u8], number: u64) -> Result<(), Failed>
    ensures whole { OnOk result (Appends (E.held err.old) (E.held err.new) (numbered_line what.now (decimal number))) }
    ensures part { OnErr result (AppendsPrefix (E.held err.old) (E.held err.new) (numbered_line what.now (decimal number))) }
    ensures cause { HasCause (E.faults err.old) (E.faults err.new) result }
{
    let mut digits = Buffer::new();
    say_digits(err, what, digits.format(number).as_bytes())
}

fn say_finding<E: Sink>(err: &mut E, finding: Finding) -> Result<(), Failed>
    ensures whole { OnOk result (Appends (E.held err.old) (E.held err.new) (finding_line finding)) }
    ensures part { OnErr result (AppendsPrefix (E.held err.old) (E.held err.new) (finding_line finding)) }
    ensures cause { HasCause (E.faults err.old) (E.faults err.new) result }
{
    match finding {
        Finding::NoStore => err.write(NO_STORE_LINE),
        Finding::NotSerial { entry } => say_number(err, b"not serial: entry ", entry as u64),
        Finding::BadRun { line } => say_number(err, b"bad run: line ", line),
        Finding::TooLong => err.write(TOO_LONG_LINE),
    }
}

fn say<E: Sink>(err: &mut E, file: &str, ending: Ending) -> Result<(), Failed>
    ensures whole { OnOk result (Appends (E.held err.old) (E.held err.new) (line_of file.now ending)) }
    ensures part { OnErr result (AppendsPrefix (E.held err.old) (E.held err.new) (line_of file.now ending)) }
    ensures cause { HasCause (E.faults err.old) (E.faults err.new) result }
{
    match ending {
        Ending::Misused => err.write(USAGE_LINE),
        Ending::Refused(fault) => say_fault(err, file, fault),
        Ending::FileFault => err.write(READ_FAULT_LINE),
        Ending::NoMemory => err.write(NO_MEMORY_LINE),
        Ending::Printed => Ok(()),
        Ending::Unprinted => err.write(WRITE_FAULT_LINE),
        Ending::Served => Ok(()),
        Ending::Stopped(stop) => say_stop(err, stop),
        Ending::Unopened(stop) => say_unopened(err, stop),
        Ending::Found(finding) => say_finding(err, finding),
    }
}

/// Says the ending's line, and flushes it.
fn say_whole<E: Sink>(err: &mut E, file: &str, ending: Ending) -> Result<(), Failed>
    ensures whole { OnOk result (Appends (E.held err.old) (E.held err.new) (line_of file.now ending)) }
    ensures part { OnErr result (AppendsPrefix (E.held err.old) (E.held err.new) (line_of file.now ending)) }
    ensures cause { HasCause (E.faults err.old) (E.faults err.new) result }
{
    say(err, file, ending)?;
    err.flush()
}

/// Tells an ending of a call on this file, and gives its status.
pub(crate) fn tell<E: Sink>(err: &mut E, file: &str, ending: Ending) -> u8
    ensures told { Told (line_of file.now ending) (status_of ending) (E.held err.old) (E.held err.new) (E.faults err.old) (E.faults err.new) result }
    ensures later { E.faults err.old ≤ E.faults err.new }
{
    let status = ending.status();
    match say_whole(err, file, ending) {
        Ok(()) => status,
        Err(Failed) => {
            if status != WRITE_FAULT {
                let _ = err.write(WRITE_FAULT_LINE);
            }
            WRITE_FAULT
        }
    }
}
