//! A write that is safe once it is answered.

ghost use Rattle.std.specs.Prelude.{◌≡◌, ◌+◌, ◌^◌, ◌≤◌, length, OnOk};
ghost use Rattle.sf_outside.specs.Causes.{HasCause};
ghost use Rattle.sf_outside.specs.DiskModel.{LeavesOnly, SeenWritten, IsDurable};
ghost use Rattle.sf_outside.specs.ImageSteps.{ComesTorn, OthersStayDurable};

use crate::devices::Failed;
use crate::store_disk::{Disk, StoreFile};

/// Writes, and makes it safe. After a fault the write may be there, in part or not at all.
pub fn put_synced<D: Disk>(
    disk: &mut D,
    file: StoreFile,
    at: u64,
    bytes: &[u8],
) -> Result<(), Failed>
    requires { at + length bytes.now ≤ 2 ^ 62 }
    ensures durable { OnOk result (IsDurable file (D.facts disk.new)) }
    ensures seen { OnOk result (SeenWritten file at bytes.now (D.facts disk.old) (D.facts disk.new)) }
    ensures moments { LeavesOnly (D.facts disk.old) (D.facts disk.new) (ComesTorn file at (length bytes.now) (D.facts disk.old)) }
    ensures others { OthersStayDurable file (D.facts disk.old) (D.facts disk.new) }
    ensures cause { HasCause (D.faults disk.old) (D.faults disk.new) result }
    ensures mounts { D.mounts disk.new ≡ D.mounts disk.old }
{
    disk.write_at(file, at, bytes)?;
    disk.sync(file)
}
