//! Why no snapshot is read.

ghost use Rattle.std.specs.Prelude.{◌≡◌};
ghost use Rattle.snapshot_store.specs.declared.fault.SnapFault.TheVariants.{Failed as DiskFailed, NoMemory};

use sf_outside::Failed;
use std::alloc::AllocError;

/// Why it isn't said which snapshot is the newest.
#[derive(Clone, Copy, PartialEq, Eq, Debug)]
pub enum SnapFault {
    /// The disk answered with a fault.
    Failed,
    /// This slot is open and keeps no snapshot.
    Bad { slot: u32 },
    NoMemory,
}

impl From<Failed> for SnapFault {
    ghost from_gives = { λ _ fault. fault ≡ DiskFailed };

    fn from(_fault: Failed) -> SnapFault {
        SnapFault::Failed
    }
}

impl From<AllocError> for SnapFault {
    ghost from_gives = { λ _ fault. fault ≡ NoMemory };

    fn from(_fault: AllocError) -> SnapFault {
        SnapFault::NoMemory
    }
}
