//! Why a store isn't opened.

ghost use Rattle.std.specs.Prelude.{◌≡◌};
ghost use Rattle.store_opening.specs.declared.stop.OpenStop.TheVariants.{DiskFault, NoMemory};
ghost use Rattle.store_opening.specs.Stops.{mount_stop, reopen_stop};

use recovery::OpenFault;
use sf_outside::{Failed, MountFault, StoreFile};

/// Why a store isn't opened.
#[derive(Clone, Copy, PartialEq, Eq, Debug)]
pub enum OpenStop {
    DiskFault,
    /// The store is bad at this place of this file.
    Bad { file: StoreFile, at: u64 },
    /// The store was kept for a program of another text.
    OtherProgram,
    NoMemory,
}

impl From<MountFault> for OpenStop {
    ghost from_gives = { λ fault stop. stop ≡ mount_stop fault };

    fn from(fault: MountFault) -> OpenStop {
        match fault {
            MountFault::Failed => OpenStop::DiskFault,
            MountFault::NoMemory => OpenStop::NoMemory,
        }
    }
}

impl From<OpenFault> for OpenStop {
    ghost from_gives = { λ fault stop. stop ≡ reopen_stop fault };

    fn from(fault: OpenFault) -> OpenStop {
        match fault {
            OpenFault::Failed => OpenStop::DiskFault,
            OpenFault::Bad { file, at } => OpenStop::Bad { file, at },
            OpenFault::NoMemory => OpenStop::NoMemory,
        }
    }
}

impl From<Failed> for OpenStop {
    ghost from_gives = { λ fault stop. stop ≡ DiskFault };

    fn from(_fault: Failed) -> OpenStop {
        OpenStop::DiskFault
    }
}
