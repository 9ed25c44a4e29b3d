//! Adding a record at the closed gate where the log ends.

ghost use Rattle.std.specs.Prelude.{◌≡◌, ◌⊎◌, ◌+◌, ◌^◌, ◌<◌, ◌≤◌, ◌∷◌, [], length, take, IfOk, OnOk, OnErr, IsErr};
ghost use Rattle.sf_bytes.specs.Gates.{open_gate, ClosedAt};
ghost use Rattle.sf_outside.specs.Causes.{HasCause, Rose};
ghost use Rattle.sf_outside.specs.DiskModel.{Image, of_file, LeavesOnly, SeenWritten, IsDurable};
ghost use Rattle.sf_outside.specs.ImageSteps.{ComesBy};
ghost use Rattle.sf_value.specs.declared.BatchRecord.{BatchRecord};
ghost use Rattle.request_log.specs.LogFile.{gate_behind, IsBatch};
ghost use Rattle.request_log.specs.Appends.{behind_gate, record_bytes, HasRecord, StaysOrHasRecord};

use crate::OPEN;
use sf_outside::{Disk, Failed, StoreFile, put_synced};

/// No write to a store ends past this place.
const END: u64 = 1 << 62;

/// Adds the record of a batch whose bytes these are, and gives the place of the gate behind it.
///
/// After a fault the disk may go on to leave the log with the record or without it.
pub fn append<D: Disk>(disk: &mut D, file: StoreFile, at: u64, body: &[u8]) -> Result<u64, Failed>
    requires closed { (image : Image) → (D.facts disk.old).may_leave image → ClosedAt (of_file file image) at }
    requires body { (batch : BatchRecord) × IsBatch body.now batch }
    requires short { length body.now < 2 ^ 32 }
    ensures next_place { IfOk result (λ next. next ≡ gate_behind at (length body.now)) }
    ensures now { OnOk result ((image : Image) → (D.facts disk.new).may_leave image → ComesBy file (HasRecord at body.now) (D.facts disk.old) image) }
    ensures durable { OnOk result (IsDurable file (D.facts disk.new)) }
    ensures seen { OnOk result (SeenWritten file at (record_bytes body.now) (D.facts disk.old) (D.facts disk.new)) }
    ensures moments { LeavesOnly (D.facts disk.old) (D.facts disk.new) (ComesBy file (StaysOrHasRecord at body.now) (D.facts disk.old)) }
    ensures past_end { 2 ^ 62 < at + 6 + length body.now → IsErr result × (disk.new ≡ disk.old) }
    ensures later { D.faults disk.old ≤ D.faults disk.new }
    ensures cause { OnErr result (Rose (D.faults disk.old) (D.faults disk.new) ⊎ (2 ^ 62 < at + 6 + length body.now)) }
    ensures mounts { D.mounts disk.new ≡ D.mounts disk.old }
{
    let len = body.len() as u64;
    if at > END - 6 - len {
        return Err(Failed);
    }
    put_behind_gate(disk, file, at, body)?;
    put_synced(disk, file, at, &[OPEN])?;
    Ok(at + 5 + len)
}

/// Writes all of a record but its gate, which stays closed, and makes it safe.
#[tactic(auto, unfolding(sf_bytes::specs::ByteForms::number_bytes))]
fn put_behind_gate<D: Disk>(
    disk: &mut D,
    file: StoreFile,
    at: u64,
    body: &[u8],
) -> Result<(), Failed>
    requires closed { (image : Image) → (D.facts disk.old).may_leave image → ClosedAt (of_file file image) at }
    requires short { length body.now < 2 ^ 32 }
    requires fits { at + 6 + length body.now ≤ 2 ^ 62 }
    ensures durable { OnOk result (IsDurable file (D.facts disk.new)) }
    ensures seen { OnOk result (SeenWritten file (at + 1) (behind_gate body.now) (D.facts disk.old) (D.facts disk.new)) }
    ensures moments { LeavesOnly (D.facts disk.old) (D.facts disk.new)
        (ComesBy file (λ before now. take (at + 1) now ≡ take (at + 1) before) (D.facts disk.old)) }
    ensures cause { HasCause (D.faults disk.old) (D.faults disk.new) result }
    ensures mounts { D.mounts disk.new ≡ D.mounts disk.old }
{
    let count = body.len() as u32;
    disk.write_at(file, at + 1, &count.to_be_bytes())?;
    disk.write_at(file, at + 5, body)?;
    put_synced(disk, file, at + 5 + body.len() as u64, &[0])
}
