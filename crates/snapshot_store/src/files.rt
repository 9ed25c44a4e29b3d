//! Which files an epoch has.

ghost use Rattle.std.specs.Prelude.{◌≡◌};
ghost use Rattle.snapshot_store.specs.SlotFile.{slot_file, slot_of, log_of};

use sf_outside::StoreFile;

/// The slot of this number, which is 0 or 1.
pub fn slot_file(number: u32) -> StoreFile
    ensures { result ≡ slot_file number }
{
    match number {
        0 => StoreFile::Snap0,
        _ => StoreFile::Snap1,
    }
}

/// The slot of an epoch.
pub(crate) fn slot_of(epoch: u64) -> StoreFile
    ensures { result ≡ slot_of epoch }
{
    slot_file((epoch % 2) as u32)
}

/// The log of an epoch.
pub fn log_of(epoch: u64) -> StoreFile
    ensures { result ≡ log_of epoch }
{
    match epoch % 2 {
        0 => StoreFile::Log0,
        _ => StoreFile::Log1,
    }
}
