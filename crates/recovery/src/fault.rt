//! Why a store isn't found again.

ghost use Rattle.std.specs.Prelude.{◌≡◌};
ghost use Rattle.recovery.specs.Answers.{slot_fault, log_fault};
ghost use Rattle.recovery.specs.declared.fault.OpenFault.TheVariants.{Failed as DiskFailed, NoMemory};

use request_log::LogFault;
use sf_outside::{Failed, StoreFile};
use snapshot_store::{SnapFault, slot_file};
use std::alloc::AllocError;

/// Why it isn't said what a store has.
#[derive(Clone, Copy, PartialEq, Eq, Debug)]
pub enum OpenFault {
    /// The disk answered with a fault.
    Failed,
    /// The store is bad at this place of this file.
    Bad { file: StoreFile, at: u64 },
    NoMemory,
}

impl From<Failed> for OpenFault {
    ghost from_gives = { λ _ fault. fault ≡ DiskFailed };

    fn from(_fault: Failed) -> OpenFault {
        OpenFault::Failed
    }
}

impl From<AllocError> for OpenFault {
    ghost from_gives = { λ _ fault. fault ≡ NoMemory };

    fn from(_fault: AllocError) -> OpenFault {
        OpenFault::NoMemory
    }
}

impl From<SnapFault> for OpenFault {
    ghost from_gives = { λ of_slots fault. fault ≡ slot_fault of_slots };

    fn from(of_slots: SnapFault) -> OpenFault {
        match of_slots {
            SnapFault::Failed => OpenFault::Failed,
            SnapFault::Bad { slot } => OpenFault::Bad {
                file: slot_file(slot),
                at: 0,
            },
            SnapFault::NoMemory => OpenFault::NoMemory,
        }
    }
}

/// The fault of a store whose log has this one.
pub(crate) fn log_fault(log: StoreFile, of_log: LogFault) -> OpenFault
    ensures { result ≡ log_fault log of_log }
{
    match of_log {
        LogFault::Failed => OpenFault::Failed,
        LogFault::Bad { at } => OpenFault::Bad { file: log, at },
        LogFault::NoMemory => OpenFault::NoMemory,
    }
}
