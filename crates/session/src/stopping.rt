//! Why a session stops before its input has ended.

use sf_outside::Failed;
use std::alloc::AllocError;

#[derive(Clone, Copy, PartialEq, Eq, Debug)]
pub enum SessionStop {
    /// A new request came, and the history has as many entries as it may have. The request isn't run.
    HistoryFull,
    NoMemory,
    /// The output can't be written or flushed.
    WriteFault,
}

impl From<AllocError> for SessionStop {
    ghost use Rattle.std.specs.Prelude.{◌≡◌};
    ghost use Rattle.session.specs.declared.stopping.SessionStop.TheVariants.{NoMemory};

    ghost from_gives = { λ _ stop. stop ≡ NoMemory };

    fn from(_error: AllocError) -> SessionStop {
        SessionStop::NoMemory
    }
}

impl From<Failed> for SessionStop {
    ghost use Rattle.std.specs.Prelude.{◌≡◌};
    ghost use Rattle.session.specs.declared.stopping.SessionStop.TheVariants.{WriteFault};

    ghost from_gives = { λ _ stop. stop ≡ WriteFault };

    fn from(_fault: Failed) -> SessionStop {
        SessionStop::WriteFault
    }
}
