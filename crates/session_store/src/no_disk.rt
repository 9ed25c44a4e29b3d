//! The disk of a session without a store.

ghost use Rattle.std.specs.Prelude.{None};

use sf_outside::{Disk, Failed, MountFault, StoreFile};
use std::alloc::Global;

/// A disk that holds nothing and tells nothing. A mount of it is refused; no other call fails.
#[derive(Clone, Copy, PartialEq, Eq, Debug)]
pub struct NoDisk;

impl Disk for NoDisk {
    ghost use Rattle.std.specs.Prelude.{None};
    ghost use Rattle.sf_outside.specs.DiskModel.{untold};
    ghost use Rattle.session_store.specs.NoDisk.{no_mounts};

    ghost facts = { λ _. untold };

    ghost found = { λ _ _. None };

    ghost faults = { λ _. 0 };

    ghost mounts = { λ _. no_mounts };

    fn mount(&mut self, _alloc: Global, _name: &str) -> Result<(), MountFault> {
        Err(MountFault::NoMemory)
    }

    fn len(&mut self, _file: StoreFile) -> Result<u64, Failed> {
        Ok(0)
    }

    fn read_at(&mut self, _file: StoreFile, _at: u64, _buf: &mut [u8]) -> Result<usize, Failed> {
        Ok(0)
    }

    fn write_at(&mut self, _file: StoreFile, _at: u64, _bytes: &[u8]) -> Result<(), Failed> {
        Ok(())
    }

    fn sync(&mut self, _file: StoreFile) -> Result<(), Failed> {
        Ok(())
    }
}
