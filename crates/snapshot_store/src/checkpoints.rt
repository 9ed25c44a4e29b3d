//! Keeping a snapshot: the slot of its epoch is closed, its log is cleared, the history is added to, the slot is filled, and then it is
//! opened.

ghost use Rattle.std.specs.Prelude.{◌≡◌, ◌≢◌, ◌⊎◌, ◌+◌, ◌^◌, ◌<◌, ◌≤◌, [], ◌∷◌, length, IfSome, OnOk, OnErr, IsErr};
ghost use Rattle.sf_bytes.specs.Heads.{IsHead};
ghost use Rattle.sf_outside.specs.Causes.{HasCause, Rose};
ghost use Rattle.sf_outside.specs.DiskModel.{Image, of_file, LeavesOnly, SeenWritten, IsDurable, Stays, LeavesNoMore};
ghost use Rattle.sf_outside.specs.ImageSteps.{ComesBy, OthersStayDurable};
ghost use Rattle.sf_outside.specs.declared.store_disk.StoreFile.{StoreFile};
ghost use Rattle.sf_value.specs.declared.heads.Head.{Head};
ghost use Rattle.snapshot_store.specs.SlotFile.{IsEpoch, IsNext, IsOpenSlot, IsShutSlot, NamesWithin, slot_of, log_of, behind_gate};
ghost use Rattle.snapshot_store.specs.SlotSteps.{GateChanges, StaysOrCloses, Closes, Opens, KeepsGate, Fills, KeepsFront, AddsBehind, ComesKeeping};
ghost use Rattle.snapshot_store.specs.SlotSteps.{ComesBeside, CheckpointStep, CheckpointDone, IsKept, KeepsOrIsKept};

use crate::OPEN;
use crate::files::{log_of, slot_of};
use crate::front::{Gate, gate_of};
use crate::spelled::{append_spelled, checkpoint_of, fill_spelled};
use sf_bytes::{Given, Measured};
use sf_outside::{Disk, Failed, StoreFile, put_synced};

/// Keeps the snapshot of the head whose bytes these are, once what it has more of the history stands at its place.
///
/// After a fault the disk may go on to leave the new snapshot or the one before it.
pub fn checkpoint<D: Disk>(
    disk: &mut D,
    epoch: u64,
    at: u64,
    more: &[u8],
    body: &[u8],
) -> Result<(), Failed>
    requires epoch { IsEpoch epoch }
    requires body { (head : Head) × IsHead body.now head }
    requires next { (image : Image) → (D.facts disk.old).may_leave image → IsNext epoch image }
    requires names { (image : Image) → (D.facts disk.old).may_leave image → NamesWithin at image }
    ensures now { OnOk result ((image : Image) → (D.facts disk.new).may_leave image
        → ComesBeside epoch at (CheckpointDone epoch at more.now body.now) (D.facts disk.old) image) }
    ensures kept { OnOk result ((image : Image) → (D.facts disk.new).may_leave image → IsKept epoch at more.now body.now image) }
    ensures slot { OnOk result (IsDurable (slot_of epoch) (D.facts disk.new)) }
    ensures log { OnOk result (IsDurable (log_of epoch) (D.facts disk.new)) }
    ensures history { OnOk result ((0 < length more.now) ⊎ IsDurable StoreFile.Hist (D.facts disk.old)
        → IsDurable StoreFile.Hist (D.facts disk.new)) }
    ensures others { (other : StoreFile) → other ≢ slot_of epoch → other ≢ log_of epoch → other ≢ StoreFile.Hist
        → IsDurable other (D.facts disk.old) → IsDurable other (D.facts disk.new) }
    ensures moments { LeavesOnly (D.facts disk.old) (D.facts disk.new)
        (ComesBeside epoch at (CheckpointStep epoch at more.now body.now) (D.facts disk.old)) }
    ensures stands { LeavesOnly (D.facts disk.old) (D.facts disk.new) (KeepsOrIsKept epoch at more.now body.now (D.facts disk.old)) }
    ensures past_end { 2 ^ 62 < 17 + length body.now → IsErr result × (disk.new ≡ disk.old) }
    ensures history_past_end { 2 ^ 62 < at + length more.now → IsErr result × (disk.new ≡ disk.old) }
    ensures later { D.faults disk.old ≤ D.faults disk.new }
    ensures cause { OnErr result (Rose (D.faults disk.old) (D.faults disk.new)
        ⊎ ((2 ^ 62 < 17 + length body.now) ⊎ (2 ^ 62 < at + length more.now))) }
    ensures mounts { D.mounts disk.new ≡ D.mounts disk.old }
{
    let (more_size, size) = (more.len() as u64, body.len() as u64);
    let more = Given { bytes: more };
    let body = Given { bytes: body };
    let more = Measured {
        spelled: &more,
        size: more_size,
    };
    let body = Measured {
        spelled: &body,
        size,
    };
    checkpoint_of(disk, epoch, at, &more, &body)
}

/// Closes the slot of an epoch.
pub fn close_slot<D: Disk>(disk: &mut D, epoch: u64) -> Result<(), Failed>
    requires { IsEpoch epoch }
    ensures now { OnOk result ((image : Image) → (D.facts disk.new).may_leave image → ComesBy (slot_of epoch) Closes (D.facts disk.old) image) }
    ensures durable { OnOk result (IsDurable (slot_of epoch) (D.facts disk.new)) }
    // A slot that is shut isn't written. In any other the first byte becomes 0.
    ensures unwritten { OnOk result (IfSome (D.facts disk.old).seen
        (λ now. IsShutSlot (of_file (slot_of epoch) now) → Stays (D.facts disk.old) (D.facts disk.new))) }
    ensures no_more { IfSome (D.facts disk.old).seen
        (λ now. IsShutSlot (of_file (slot_of epoch) now) → LeavesNoMore (D.facts disk.old) (D.facts disk.new)) }
    ensures written { OnOk result (IfSome (D.facts disk.old).seen
        (λ now. (IsShutSlot (of_file (slot_of epoch) now) → ⊥) → SeenWritten (slot_of epoch) 0 (0 ∷ []) (D.facts disk.old) (D.facts disk.new))) }
    ensures moments { LeavesOnly (D.facts disk.old) (D.facts disk.new) (ComesBy (slot_of epoch) StaysOrCloses (D.facts disk.old)) }
    ensures others { OthersStayDurable (slot_of epoch) (D.facts disk.old) (D.facts disk.new) }
    ensures cause { HasCause (D.faults disk.old) (D.faults disk.new) result }
    ensures mounts { D.mounts disk.new ≡ D.mounts disk.old }
{
    let slot = slot_of(epoch);
    match gate_of(disk, slot)? {
        Gate::Closed => disk.sync(slot),
        Gate::Alone | Gate::Open => close_gate(disk, slot),
    }
}

/// Closes the gate of a slot that is open or has at most one byte.
///
/// The slot is made safe first. Else a crash might leave a closed gate that isn't read, and the write,
/// not being whole, might open that one.
fn close_gate<D: Disk>(disk: &mut D, slot: StoreFile) -> Result<(), Failed>
    requires { IfSome (D.facts disk.old).seen (λ now. (length (of_file slot now) < 2) ⊎ IsOpenSlot (of_file slot now)) }
    ensures now { OnOk result ((image : Image) → (D.facts disk.new).may_leave image → ComesBy slot Closes (D.facts disk.old) image) }
    ensures durable { OnOk result (IsDurable slot (D.facts disk.new)) }
    ensures seen { OnOk result (SeenWritten slot 0 (0 ∷ []) (D.facts disk.old) (D.facts disk.new)) }
    ensures moments { LeavesOnly (D.facts disk.old) (D.facts disk.new) (ComesBy slot StaysOrCloses (D.facts disk.old)) }
    ensures others { OthersStayDurable slot (D.facts disk.old) (D.facts disk.new) }
    ensures cause { HasCause (D.faults disk.old) (D.faults disk.new) result }
    ensures mounts { D.mounts disk.new ≡ D.mounts disk.old }
{
    disk.sync(slot)?;
    put_synced(disk, slot, 0, &[0])
}

/// Makes the log of an epoch begin with a closed gate.
pub fn clear_log<D: Disk>(disk: &mut D, epoch: u64) -> Result<(), Failed>
    requires { IsEpoch epoch }
    ensures now { OnOk result ((image : Image) → (D.facts disk.new).may_leave image → ComesBy (log_of epoch) Closes (D.facts disk.old) image) }
    ensures durable { OnOk result (IsDurable (log_of epoch) (D.facts disk.new)) }
    ensures seen { OnOk result (SeenWritten (log_of epoch) 0 (0 ∷ []) (D.facts disk.old) (D.facts disk.new)) }
    ensures moments { LeavesOnly (D.facts disk.old) (D.facts disk.new) (ComesBy (log_of epoch) GateChanges (D.facts disk.old)) }
    ensures others { OthersStayDurable (log_of epoch) (D.facts disk.old) (D.facts disk.new) }
    ensures cause { HasCause (D.faults disk.old) (D.faults disk.new) result }
    ensures mounts { D.mounts disk.new ≡ D.mounts disk.old }
{
    put_synced(disk, log_of(epoch), 0, &[0])
}

/// Adds bytes to the history, from a place on that is behind all that is named of it. It doesn't write where there are none.
pub fn append_history<D: Disk>(disk: &mut D, at: u64, body: &[u8]) -> Result<(), Failed>
    requires { (image : Image) → (D.facts disk.old).may_leave image → NamesWithin at image }
    ensures now { OnOk result ((image : Image) → (D.facts disk.new).may_leave image
        → ComesBy StoreFile.Hist (AddsBehind at body.now) (D.facts disk.old) image) }
    ensures durable { OnOk result ((0 < length body.now) ⊎ IsDurable StoreFile.Hist (D.facts disk.old)
        → IsDurable StoreFile.Hist (D.facts disk.new)) }
    ensures seen { OnOk result (SeenWritten StoreFile.Hist at body.now (D.facts disk.old) (D.facts disk.new)) }
    ensures unwritten { length body.now ≡ 0 → disk.new ≡ disk.old }
    ensures moments { LeavesOnly (D.facts disk.old) (D.facts disk.new) (ComesBy StoreFile.Hist (KeepsFront at) (D.facts disk.old)) }
    ensures stands { LeavesOnly (D.facts disk.old) (D.facts disk.new) (ComesKeeping (D.facts disk.old)) }
    ensures others { OthersStayDurable StoreFile.Hist (D.facts disk.old) (D.facts disk.new) }
    ensures past_end { 2 ^ 62 < at + length body.now → IsErr result × (disk.new ≡ disk.old) }
    ensures later { D.faults disk.old ≤ D.faults disk.new }
    ensures cause { OnErr result (Rose (D.faults disk.old) (D.faults disk.new) ⊎ (2 ^ 62 < at + length body.now)) }
    ensures mounts { D.mounts disk.new ≡ D.mounts disk.old }
{
    let given = Given { bytes: body };
    let more = Measured {
        spelled: &given,
        size: body.len() as u64,
    };
    append_spelled(disk, at, &more)
}

/// Writes the epoch and the head whose bytes these are behind the gate of the slot of the epoch.
pub fn fill_slot<D: Disk>(disk: &mut D, epoch: u64, body: &[u8]) -> Result<(), Failed>
    requires epoch { IsEpoch epoch }
    requires body { (head : Head) × IsHead body.now head }
    ensures now { OnOk result ((image : Image) → (D.facts disk.new).may_leave image
        → ComesBy (slot_of epoch) (Fills epoch body.now) (D.facts disk.old) image) }
    ensures durable { OnOk result (IsDurable (slot_of epoch) (D.facts disk.new)) }
    ensures seen { OnOk result (SeenWritten (slot_of epoch) 1 (behind_gate epoch body.now) (D.facts disk.old) (D.facts disk.new)) }
    ensures moments { LeavesOnly (D.facts disk.old) (D.facts disk.new) (ComesBy (slot_of epoch) KeepsGate (D.facts disk.old)) }
    ensures others { OthersStayDurable (slot_of epoch) (D.facts disk.old) (D.facts disk.new) }
    ensures past_end { 2 ^ 62 < 17 + length body.now → IsErr result × (disk.new ≡ disk.old) }
    ensures later { D.faults disk.old ≤ D.faults disk.new }
    ensures cause { OnErr result (Rose (D.faults disk.old) (D.faults disk.new) ⊎ (2 ^ 62 < 17 + length body.now)) }
    ensures mounts { D.mounts disk.new ≡ D.mounts disk.old }
{
    let given = Given { bytes: body };
    let body = Measured {
        spelled: &given,
        size: body.len() as u64,
    };
    fill_spelled(disk, epoch, &body)
}

/// Opens the slot of an epoch.
pub fn open_slot<D: Disk>(disk: &mut D, epoch: u64) -> Result<(), Failed>
    requires { IsEpoch epoch }
    ensures now { OnOk result ((image : Image) → (D.facts disk.new).may_leave image → ComesBy (slot_of epoch) Opens (D.facts disk.old) image) }
    ensures durable { OnOk result (IsDurable (slot_of epoch) (D.facts disk.new)) }
    ensures seen { OnOk result (SeenWritten (slot_of epoch) 0 (165 ∷ []) (D.facts disk.old) (D.facts disk.new)) }
    ensures moments { LeavesOnly (D.facts disk.old) (D.facts disk.new) (ComesBy (slot_of epoch) GateChanges (D.facts disk.old)) }
    ensures others { OthersStayDurable (slot_of epoch) (D.facts disk.old) (D.facts disk.new) }
    ensures cause { HasCause (D.faults disk.old) (D.faults disk.new) result }
    ensures mounts { D.mounts disk.new ≡ D.mounts disk.old }
{
    put_synced(disk, slot_of(epoch), 0, &[OPEN])
}
