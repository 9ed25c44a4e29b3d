//! Writing lines, one after another.

ghost use Rattle.std.specs.Prelude.{OnOk, OnErr};
ghost use Rattle.std.specs.Io.KnownBytes.{Appends};
ghost use Rattle.sf_outside.specs.Bytes.{AppendsPrefix};
ghost use Rattle.sf_outside.specs.Causes.{HasCause};
ghost use Rattle.sf_outside.specs.Gains.{joined};
ghost use Rattle.batch_replies.specs.Flushing.{StaysHanded, Flushes};

use sf_outside::{Failed, Sink};
use sf_value::Bytes;

/// Writes all lines and hands them on, or a part of them. It takes no memory.
pub(crate) fn write_all<K: Sink>(out: &mut K, lines: &[Bytes]) -> Result<(), Failed>
    ensures whole { OnOk result (Appends (K.held out.old) (K.held out.new) (joined lines.now)) }
    ensures part { OnErr result (AppendsPrefix (K.held out.old) (K.held out.new) (joined lines.now)) }
    ensures cause { HasCause (K.faults out.old) (K.faults out.new) result }
    ensures flushes { Flushes result (K.handed out.old) (K.handed out.new) (K.held out.new) }
{
    write_lines(out, lines)?;
    out.flush()
}

fn write_lines<K: Sink>(out: &mut K, lines: &[Bytes]) -> Result<(), Failed>
    ensures whole { OnOk result (Appends (K.held out.old) (K.held out.new) (joined lines.now)) }
    ensures part { OnErr result (AppendsPrefix (K.held out.old) (K.held out.new) (joined lines.now)) }
    ensures cause { HasCause (K.faults out.old) (K.faults out.new) result }
    ensures stays { StaysHanded (K.handed out.old) (K.handed out.new) }
{
    for line in lines {
        out.write(line.as_slice())?;
    }
    Ok(())
}
