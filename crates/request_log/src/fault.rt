//! Why a record is not read.

ghost use Rattle.std.specs.Prelude.{◌≡◌};
ghost use Rattle.request_log.specs.declared.fault.LogFault.TheVariants.{Failed as DiskFailed, NoMemory};

use sf_outside::Failed;
use std::alloc::AllocError;

/// Why no record is read.
#[derive(Clone, Copy, PartialEq, Eq, Debug)]
pub enum LogFault {
    /// The disk answered with a fault.
    Failed,
    /// No gate is in the file at this place, or no record is behind the open gate there.
    Bad { at: u64 },
    NoMemory,
}

impl From<Failed> for LogFault {
    ghost from_gives = { λ _ fault. fault ≡ DiskFailed };

    fn from(_fault: Failed) -> LogFault {
        LogFault::Failed
    }
}

impl From<AllocError> for LogFault {
    ghost from_gives = { λ _ fault. fault ≡ NoMemory };

    fn from(_fault: AllocError) -> LogFault {
        LogFault::NoMemory
    }
}
