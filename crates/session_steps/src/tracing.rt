//! The line that a batch is traced by.

ghost use Rattle.std.specs.Prelude.{OnOk, OnErr};
ghost use Rattle.std.specs.Io.KnownBytes.{Appends};
ghost use Rattle.sf_outside.specs.Bytes.{AppendsPrefix};
ghost use Rattle.sf_outside.specs.Causes.{HasCause};
ghost use Rattle.session_steps.specs.Traces.{trace_line};

use crate::pieces::write_pieces;
use itoa::Buffer;
use line_answers::BatchCounts;
use sf_outside::{Failed, Sink};

/// Writes the line of a batch: its number, counted from 1, and what it came to. It takes no memory, and
/// flushes nothing.
pub fn write_trace<E: Sink>(err: &mut E, number: u64, counts: BatchCounts) -> Result<(), Failed>
    ensures whole { OnOk result (Appends (E.held err.old) (E.held err.new) (trace_line number counts)) }
    ensures part { OnErr result (AppendsPrefix (E.held err.old) (E.held err.new) (trace_line number counts)) }
    ensures cause { HasCause (E.faults err.old) (E.faults err.new) result }
{
    let mut number_digits = Buffer::new();
    let mut pending_digits = Buffer::new();
    let mut committed_digits = Buffer::new();
    let mut event_digits = Buffer::new();
    write_pieces(
        err,
        &[
            b"batch ",
            number_digits.format(number).as_bytes(),
            b": pending ",
            pending_digits.format(counts.pending).as_bytes(),
            b", committed ",
            committed_digits.format(counts.committed).as_bytes(),
            b", events ",
            event_digits.format(counts.events).as_bytes(),
            b"\n",
        ],
    )
}
