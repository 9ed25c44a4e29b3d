//! Writing a line in pieces.

ghost use Rattle.std.specs.Prelude.{map, OnOk, OnErr};
ghost use Rattle.std.specs.List.{concat};
ghost use Rattle.std.specs.Io.KnownBytes.{Appends};
ghost use Rattle.sf_outside.specs.Bytes.{AppendsPrefix};
ghost use Rattle.sf_outside.specs.Causes.{HasCause};

use sf_outside::{Failed, Sink};

/// Writes pieces one after another. It takes no memory, and flushes nothing.
pub fn write_pieces<K: Sink>(out: &mut K, pieces: &[&[u8]]) -> Result<(), Failed>
    ensures whole { OnOk result (Appends (K.held out.old) (K.held out.new) (concat (map (λ piece. piece.now) pieces.now))) }
    ensures part { OnErr result (AppendsPrefix (K.held out.old) (K.held out.new) (concat (map (λ piece. piece.now) pieces.now))) }
    ensures cause { HasCause (K.faults out.old) (K.faults out.new) result }
{
    for piece in pieces {
        out.write(piece)?;
    }
    Ok(())
}
