//! Writing lines to a sink, and what it gained where the writing stops early.

ghost use Rattle.std.specs.Prelude.{OnOk, OnErr};
ghost use Rattle.std.specs.Io.KnownBytes.{Appends};
ghost use Rattle.sf_outside.specs.Bytes.{AppendsPrefix};
ghost use Rattle.sf_outside.specs.Causes.{HasCause};

use crate::devices::{Failed, Sink};
use std::alloc::{AllocError, AllocFailed};

/// Why a call that writes lines stops before the last.
#[derive(Clone, Copy, PartialEq, Eq, Debug)]
pub enum WriteStop {
    NoMemory,
    WriteFault,
}

impl From<AllocError> for WriteStop {
    ghost use Rattle.std.specs.Prelude.{◌≡◌};
    ghost use Rattle.sf_outside.specs.declared.gains.WriteStop.TheVariants.{NoMemory};

    ghost from_gives = { λ _ stop. stop ≡ NoMemory };

    fn from(_error: AllocError) -> WriteStop {
        WriteStop::NoMemory
    }
}

impl<T: Drop> From<AllocFailed<T>> for WriteStop {
    ghost use Rattle.std.specs.Prelude.{◌≡◌};
    ghost use Rattle.sf_outside.specs.declared.gains.WriteStop.TheVariants.{NoMemory};

    ghost from_gives = { λ _ stop. stop ≡ NoMemory };

    fn from(_error: AllocFailed<T>) -> WriteStop {
        WriteStop::NoMemory
    }
}

impl From<Failed> for WriteStop {
    ghost use Rattle.std.specs.Prelude.{◌≡◌};
    ghost use Rattle.sf_outside.specs.declared.gains.WriteStop.TheVariants.{WriteFault};

    ghost from_gives = { λ _ stop. stop ≡ WriteFault };

    fn from(_fault: Failed) -> WriteStop {
        WriteStop::WriteFault
    }
}

/// Writes one line, or a part of it. It takes no memory, so its one fault is the sink's.
pub fn write_line<K: Sink>(out: &mut K, line: &[u8]) -> Result<(), Failed>
    ensures whole { OnOk result (Appends (K.held out.old) (K.held out.new) line.now) }
    ensures part { OnErr result (AppendsPrefix (K.held out.old) (K.held out.new) line.now) }
    ensures cause { HasCause (K.faults out.old) (K.faults out.new) result }
{
    out.write(line)
}
