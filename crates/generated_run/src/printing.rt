//! The line of a summary.

ghost use Rattle.std.specs.Prelude.{OnOk, OnErr};
ghost use Rattle.std.specs.Io.KnownBytes.{Appends};
ghost use Rattle.sf_outside.specs.Bytes.{AppendsPrefix};
ghost use Rattle.sf_outside.specs.Causes.{HasCause};
ghost use Rattle.generated_run.specs.Summaries.{summary_line};

use crate::summing::Summary;
use batch_session::write_pieces;
use itoa::Buffer;
use sf_outside::{Failed, Sink};
use wide_sums::Numeral;

/// Writes the line of a summary. It takes no memory, and doesn't flush.
pub fn write_summary<K: Sink>(out: &mut K, summary: &Summary) -> Result<(), Failed>
    ensures whole { OnOk result (Appends (K.held out.old) (K.held out.new) (summary_line summary.now)) }
    ensures part { OnErr result (AppendsPrefix (K.held out.old) (K.held out.new) (summary_line summary.now)) }
    ensures cause { HasCause (K.faults out.old) (K.faults out.new) result }
{
    let mut requests = Buffer::new();
    let mut committed = Buffer::new();
    let mut failed = Buffer::new();
    let mut batches = Buffer::new();
    let mut events = Buffer::new();
    let mut numeral = Numeral::new();
    let total = numeral.format(&summary.total);
    write_pieces(
        out,
        &[
            b"requests ",
            requests.format(summary.requests).as_bytes(),
            b" committed ",
            committed.format(summary.committed).as_bytes(),
            b" failed ",
            failed.format(summary.failed).as_bytes(),
            b" batches ",
            batches.format(summary.batches).as_bytes(),
            b" events ",
            events.format(summary.events).as_bytes(),
            b" total ",
            total.sign,
            total.front,
            total.back,
            b"\n",
        ],
    )
}
