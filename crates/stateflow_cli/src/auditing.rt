//! Auditing a run: what a file of request lines and reply lines is, by a serial run of the program.

ghost use Rattle.std.specs.Prelude.{◌≡◌, OnOk, OnErr, decimal};
ghost use Rattle.std.specs.Io.KnownBytes.{Appends};
ghost use Rattle.sf_outside.specs.Bytes.{AppendsPrefix};
ghost use Rattle.sf_outside.specs.Causes.{HasCause};
ghost use Rattle.operator_graph.specs.Turns.{Outside};
ghost use Rattle.stateflow_cli.specs.AuditEnds.{AuditEnds};
ghost use Rattle.stateflow_cli.specs.Devices.{StoreDisk, Input, Output, devices, sink};
ghost use Rattle.stateflow_cli.specs.Endings.{longest_input};
ghost use Rattle.stateflow_cli.specs.Verdicts.{serial_line, differing_lines, verdict_text, verdict_ending};

use crate::ending::{Ending, Finding};
use crate::loading::{LoadStop, load};
use crate::running::LONGEST_INPUT;
use batch_run::write_pieces;
use itoa::Buffer;
use run_audit::{AuditFault, Verdict, audit};
use sf_outside::{Failed, Files, Sink};
use std::alloc::Global;

fn write_serial<K: Sink>(out: &mut K, entries: u32) -> Result<(), Failed>
    ensures whole { OnOk result (Appends (K.held out.old) (K.held out.new) (serial_line (decimal entries))) }
    ensures part { OnErr result (AppendsPrefix (K.held out.old) (K.held out.new) (serial_line (decimal entries))) }
    ensures cause { HasCause (K.faults out.old) (K.faults out.new) result }
{
    let mut digits = Buffer::new();
    write_pieces(
        out,
        &[
            b"serial: ",
            digits.format(entries).as_bytes(),
            b" entries\n",
        ],
    )
}

/// Writes of an entry that differs what was wanted and what its even line says, where the digits of its number are given.
fn write_differing<K: Sink>(
    out: &mut K,
    digits: &[u8],
    wanted: &[u8],
    said: &[u8],
) -> Result<(), Failed>
    ensures whole { OnOk result (Appends (K.held out.old) (K.held out.new) (differing_lines digits.now wanted.now said.now)) }
    ensures part { OnErr result (AppendsPrefix (K.held out.old) (K.held out.new) (differing_lines digits.now wanted.now said.now)) }
    ensures cause { HasCause (K.faults out.old) (K.faults out.new) result }
{
    write_pieces(
        out,
        &[
            b"entry ",
            digits,
            b" expected: ",
            wanted,
            b"\nentry ",
            digits,
            b" found: ",
            said,
            b"\n",
        ],
    )
}

fn write_entry<K: Sink>(out: &mut K, place: u32, wanted: &[u8], said: &[u8]) -> Result<(), Failed>
    ensures whole { OnOk result (Appends (K.held out.old) (K.held out.new) (differing_lines (decimal place) wanted.now said.now)) }
    ensures part { OnErr result (AppendsPrefix (K.held out.old) (K.held out.new) (differing_lines (decimal place) wanted.now said.now)) }
    ensures cause { HasCause (K.faults out.old) (K.faults out.new) result }
{
    let mut digits = Buffer::new();
    write_differing(out, digits.format(place).as_bytes(), wanted, said)
}

/// Writes the text of a verdict.
fn write_verdict<K: Sink>(out: &mut K, verdict: &Verdict) -> Result<(), Failed>
    ensures whole { OnOk result (Appends (K.held out.old) (K.held out.new) (verdict_text verdict.now)) }
    ensures part { OnErr result (AppendsPrefix (K.held out.old) (K.held out.new) (verdict_text verdict.now)) }
    ensures cause { HasCause (K.faults out.old) (K.faults out.new) result }
{
    match verdict {
        Verdict::Serial { entries } => write_serial(out, *entries),
        Verdict::Differs {
            place,
            wanted,
            found,
        } => write_entry(out, *place, wanted.as_slice(), found.as_slice()),
        Verdict::BadRun { .. } => Ok(()),
    }
}

/// Writes the text of a verdict, and flushes it.
fn print_verdict<K: Sink>(out: &mut K, verdict: &Verdict) -> Result<(), Failed>
    ensures whole { OnOk result (Appends (K.held out.old) (K.held out.new) (verdict_text verdict.now)) }
    ensures part { OnErr result (AppendsPrefix (K.held out.old) (K.held out.new) (verdict_text verdict.now)) }
    ensures cause { HasCause (K.faults out.old) (K.faults out.new) result }
{
    write_verdict(out, verdict)?;
    out.flush()
}

/// How a verdict ends the call.
fn ending_of(verdict: &Verdict) -> Ending
    ensures { result ≡ verdict_ending verdict.now }
{
    match verdict {
        Verdict::Serial { .. } => Ending::Printed,
        Verdict::Differs { place, .. } => Ending::Found(Finding::NotSerial { entry: *place }),
        Verdict::BadRun { line } => Ending::Found(Finding::BadRun { line: *line }),
    }
}

/// Judges the lines of a run's file by the file's program, and prints what an entry should be that differs. The other devices are no matter.
pub(crate) fn audit_file<F: Files, K: Sink>(
    alloc: Global,
    file: &str,
    run: &str,
    files: &mut F,
    out: &mut K,
) -> Ending
    ensures { (input : Input) (err : Output) (outside : Outside) (disk : StoreDisk) → AuditEnds longest_input file.now run.now
        (devices (F.content files.old) (F.faults files.old) input (sink (K.held out.old) (K.handed out.old) (K.faults out.old)) err outside disk)
        (devices (F.content files.new) (F.faults files.new) input (sink (K.held out.new) (K.handed out.new) (K.faults out.new)) err outside disk)
        result }
{
    let program = match load(alloc, files, file) {
        Ok(program) => program,
        Err(LoadStop::Refused(fault)) => return Ending::Refused(fault),
        Err(LoadStop::FileFault) => return Ending::FileFault,
        Err(LoadStop::NoMemory) => return Ending::NoMemory,
    };
    let verdict = match audit(alloc, &program, files, run, LONGEST_INPUT) {
        Ok(verdict) => verdict,
        Err(AuditFault::ReadFault) => return Ending::FileFault,
        Err(AuditFault::InputTooLong) => return Ending::Found(Finding::TooLong),
        Err(AuditFault::NoMemory) => return Ending::NoMemory,
    };
    match print_verdict(out, &verdict) {
        Ok(()) => ending_of(&verdict),
        Err(Failed) => Ending::Unprinted,
    }
}
