//! The steps of a checkpoint that write what has bytes as it puts them. They take no memory.

ghost use Rattle.std.specs.Prelude.{◌≡◌, ◌≢◌, ◌⊎◌, ◌↔◌, ◌+◌, ◌^◌, ◌<◌, ◌≤◌, false, length, OnOk, OnErr, IsErr, IsTrue};
ghost use Rattle.sf_bytes.specs.ByteForms.{long_bytes};
ghost use Rattle.sf_bytes.specs.Counting.{IsSizeOf};
ghost use Rattle.sf_bytes.specs.Heads.{IsHead};
ghost use Rattle.sf_outside.specs.Causes.{HasCause, Rose};
ghost use Rattle.sf_outside.specs.DiskModel.{Image, LeavesOnly, SeenWritten, IsDurable};
ghost use Rattle.sf_outside.specs.ImageSteps.{ComesBy, OthersStayDurable};
ghost use Rattle.sf_outside.specs.declared.store_disk.StoreFile.{StoreFile};
ghost use Rattle.sf_value.specs.declared.heads.Head.{Head};
ghost use Rattle.snapshot_store.specs.SlotFile.{IsEpoch, IsNext, NamesWithin, slot_of, log_of, behind_gate};
ghost use Rattle.snapshot_store.specs.SlotSteps.{KeepsGate, Fills, KeepsFront, AddsBehind, ComesKeeping};
ghost use Rattle.snapshot_store.specs.SlotSteps.{ComesBeside, CheckpointStep, CheckpointDone, IsKept, KeepsOrIsKept};

use crate::checkpoints::{clear_log, close_slot, open_slot};
use crate::files::slot_of;
use crate::paged::put_spelled;
use sf_bytes::{Measured, Out, Spelled};
use sf_outside::{Disk, Failed, StoreFile};

/// No write to a store ends past this place.
const END: u64 = 1 << 62;

/// Keeps the snapshot of the head whose bytes these are, once what it has more of the history stands at its place. Both are written as they are spelled, and
/// their sizes are known.
///
/// After a fault the disk may go on to leave the new snapshot or the one before it.
pub fn checkpoint_of<D: Disk, M: Spelled, B: Spelled>(
    disk: &mut D,
    epoch: u64,
    at: u64,
    more: &Measured<'_, M>,
    body: &Measured<'_, B>,
) -> Result<(), Failed>
    requires epoch { IsEpoch epoch }
    requires more { M.is_spelt more.now.spelled.now × IsSizeOf more.now.size (M.bytes_of more.now.spelled.now) }
    requires spelt { B.is_spelt body.now.spelled.now × IsSizeOf body.now.size (B.bytes_of body.now.spelled.now) }
    requires body { (head : Head) × IsHead (B.bytes_of body.now.spelled.now) head }
    requires next { (image : Image) → (D.facts disk.old).may_leave image → IsNext epoch image }
    requires names { (image : Image) → (D.facts disk.old).may_leave image → NamesWithin at image }
    ensures now { OnOk result ((image : Image) → (D.facts disk.new).may_leave image
        → ComesBeside epoch at (CheckpointDone epoch at (M.bytes_of more.now.spelled.now) (B.bytes_of body.now.spelled.now)) (D.facts disk.old) image) }
    ensures kept { OnOk result ((image : Image) → (D.facts disk.new).may_leave image
        → IsKept epoch at (M.bytes_of more.now.spelled.now) (B.bytes_of body.now.spelled.now) image) }
    ensures slot { OnOk result (IsDurable (slot_of epoch) (D.facts disk.new)) }
    ensures log { OnOk result (IsDurable (log_of epoch) (D.facts disk.new)) }
    ensures history { OnOk result ((0 < length (M.bytes_of more.now.spelled.now)) ⊎ IsDurable StoreFile.Hist (D.facts disk.old)
        → IsDurable StoreFile.Hist (D.facts disk.new)) }
    ensures others { (other : StoreFile) → other ≢ slot_of epoch → other ≢ log_of epoch → other ≢ StoreFile.Hist
        → IsDurable other (D.facts disk.old) → IsDurable other (D.facts disk.new) }
    ensures moments { LeavesOnly (D.facts disk.old) (D.facts disk.new)
        (ComesBeside epoch at (CheckpointStep epoch at (M.bytes_of more.now.spelled.now) (B.bytes_of body.now.spelled.now)) (D.facts disk.old)) }
    ensures stands { LeavesOnly (D.facts disk.old) (D.facts disk.new)
        (KeepsOrIsKept epoch at (M.bytes_of more.now.spelled.now) (B.bytes_of body.now.spelled.now) (D.facts disk.old)) }
    ensures past_end { 2 ^ 62 < 17 + length (B.bytes_of body.now.spelled.now) → IsErr result × (disk.new ≡ disk.old) }
    ensures history_past_end { 2 ^ 62 < at + length (M.bytes_of more.now.spelled.now) → IsErr result × (disk.new ≡ disk.old) }
    ensures later { D.faults disk.old ≤ D.faults disk.new }
    ensures cause { OnErr result (Rose (D.faults disk.old) (D.faults disk.new)
        ⊎ ((2 ^ 62 < 17 + length (B.bytes_of body.now.spelled.now)) ⊎ (2 ^ 62 < at + length (M.bytes_of more.now.spelled.now)))) }
    ensures mounts { D.mounts disk.new ≡ D.mounts disk.old }
{
    if ends_past(17, body) || ends_past(at, more) {
        return Err(Failed);
    }
    close_slot(disk, epoch)?;
    clear_log(disk, epoch)?;
    append_spelled(disk, at, more)?;
    fill_spelled(disk, epoch, body)?;
    open_slot(disk, epoch)
}

/// Whether a write of a thing at this place would end past the last place of a store. Where it wouldn't, its size is exact.
fn ends_past<B: Spelled>(at: u64, body: &Measured<'_, B>) -> bool
    requires { IsSizeOf body.now.size (B.bytes_of body.now.spelled.now) }
    ensures past { IsTrue result ↔ (2 ^ 62 < at + length (B.bytes_of body.now.spelled.now)) }
    ensures exact { result ≡ false → body.now.size ≡ length (B.bytes_of body.now.spelled.now) }
{
    at > END || body.size > END - at
}

/// Adds the bytes of a thing to the history, from a place on that is behind all that is named of it. It doesn't write where there are none.
pub(crate) fn append_spelled<D: Disk, M: Spelled>(
    disk: &mut D,
    at: u64,
    more: &Measured<'_, M>,
) -> Result<(), Failed>
    requires spelt { M.is_spelt more.now.spelled.now }
    requires size { IsSizeOf more.now.size (M.bytes_of more.now.spelled.now) }
    requires names { (image : Image) → (D.facts disk.old).may_leave image → NamesWithin at image }
    ensures now { OnOk result ((image : Image) → (D.facts disk.new).may_leave image
        → ComesBy StoreFile.Hist (AddsBehind at (M.bytes_of more.now.spelled.now)) (D.facts disk.old) image) }
    ensures durable { OnOk result ((0 < length (M.bytes_of more.now.spelled.now)) ⊎ IsDurable StoreFile.Hist (D.facts disk.old)
        → IsDurable StoreFile.Hist (D.facts disk.new)) }
    ensures seen { OnOk result (SeenWritten StoreFile.Hist at (M.bytes_of more.now.spelled.now) (D.facts disk.old) (D.facts disk.new)) }
    ensures unwritten { length (M.bytes_of more.now.spelled.now) ≡ 0 → disk.new ≡ disk.old }
    ensures moments { LeavesOnly (D.facts disk.old) (D.facts disk.new) (ComesBy StoreFile.Hist (KeepsFront at) (D.facts disk.old)) }
    ensures stands { LeavesOnly (D.facts disk.old) (D.facts disk.new) (ComesKeeping (D.facts disk.old)) }
    ensures others { OthersStayDurable StoreFile.Hist (D.facts disk.old) (D.facts disk.new) }
    ensures past_end { 2 ^ 62 < at + length (M.bytes_of more.now.spelled.now) → IsErr result × (disk.new ≡ disk.old) }
    ensures later { D.faults disk.old ≤ D.faults disk.new }
    ensures cause { OnErr result (Rose (D.faults disk.old) (D.faults disk.new) ⊎ (2 ^ 62 < at + length (M.bytes_of more.now.spelled.now))) }
    ensures mounts { D.mounts disk.new ≡ D.mounts disk.old }
{
    if ends_past(at, more) {
        return Err(Failed);
    }
    if more.size == 0 {
        return Ok(());
    }
    put_spelled(disk, StoreFile::Hist, at, more.spelled)
}

/// Writes the epoch and the head whose bytes these are behind the gate of the slot of the epoch.
pub(crate) fn fill_spelled<D: Disk, B: Spelled>(
    disk: &mut D,
    epoch: u64,
    body: &Measured<'_, B>,
) -> Result<(), Failed>
    requires epoch { IsEpoch epoch }
    requires spelt { B.is_spelt body.now.spelled.now }
    requires size { IsSizeOf body.now.size (B.bytes_of body.now.spelled.now) }
    requires body { (head : Head) × IsHead (B.bytes_of body.now.spelled.now) head }
    ensures now { OnOk result ((image : Image) → (D.facts disk.new).may_leave image
        → ComesBy (slot_of epoch) (Fills epoch (B.bytes_of body.now.spelled.now)) (D.facts disk.old) image) }
    ensures durable { OnOk result (IsDurable (slot_of epoch) (D.facts disk.new)) }
    ensures seen { OnOk result (SeenWritten (slot_of epoch) 1 (behind_gate epoch (B.bytes_of body.now.spelled.now)) (D.facts disk.old) (D.facts disk.new)) }
    ensures moments { LeavesOnly (D.facts disk.old) (D.facts disk.new) (ComesBy (slot_of epoch) KeepsGate (D.facts disk.old)) }
    ensures others { OthersStayDurable (slot_of epoch) (D.facts disk.old) (D.facts disk.new) }
    ensures fits { OnOk result (17 + length (B.bytes_of body.now.spelled.now) ≤ 2 ^ 62) }
    ensures past_end { 2 ^ 62 < 17 + length (B.bytes_of body.now.spelled.now) → IsErr result × (disk.new ≡ disk.old) }
    ensures later { D.faults disk.old ≤ D.faults disk.new }
    ensures cause { OnErr result (Rose (D.faults disk.old) (D.faults disk.new) ⊎ (2 ^ 62 < 17 + length (B.bytes_of body.now.spelled.now))) }
    ensures mounts { D.mounts disk.new ≡ D.mounts disk.old }
{
    if ends_past(17, body) {
        return Err(Failed);
    }
    put_behind_gate(disk, slot_of(epoch), epoch, body)
}

/// Writes an epoch and a body behind the gate of a slot, and makes them safe.
fn put_behind_gate<D: Disk, B: Spelled>(
    disk: &mut D,
    slot: StoreFile,
    epoch: u64,
    body: &Measured<'_, B>,
) -> Result<(), Failed>
    requires spelt { B.is_spelt body.now.spelled.now }
    requires size { body.now.size ≡ length (B.bytes_of body.now.spelled.now) }
    requires end { 17 + body.now.size ≤ 2 ^ 62 }
    ensures durable { OnOk result (IsDurable slot (D.facts disk.new)) }
    ensures seen { OnOk result (SeenWritten slot 1 (behind_gate epoch (B.bytes_of body.now.spelled.now)) (D.facts disk.old) (D.facts disk.new)) }
    ensures moments { LeavesOnly (D.facts disk.old) (D.facts disk.new) (ComesBy slot KeepsGate (D.facts disk.old)) }
    ensures others { OthersStayDurable slot (D.facts disk.old) (D.facts disk.new) }
    ensures cause { HasCause (D.faults disk.old) (D.faults disk.new) result }
    ensures mounts { D.mounts disk.new ≡ D.mounts disk.old }
{
    let all = BehindGate {
        epoch,
        size: body.size,
        body: body.spelled,
    };
    put_spelled(disk, slot, 1, &all)
}

/// What stands behind the gate of a slot: an epoch, how many bytes a body has, and the body.
#[derive(Drop)]
struct BehindGate<'a, B> {
    epoch: u64,
    size: u64,
    body: &'a B,
}

impl<B: Spelled> Spelled for BehindGate<'_, B> {
    ghost use Rattle.std.specs.Prelude.{◌++◌};
    ghost use Rattle.sf_bytes.specs.ByteForms.{long_bytes};

    ghost bytes_of = { λ all. long_bytes all.epoch ++ long_bytes all.size ++ B.bytes_of all.body.now };

    ghost is_spelt = { λ all. B.is_spelt all.body.now };

    ghost is_real = { λ all. B.is_real all.body.now };

    fn put<W, O: Out<W>>(&self, out: &mut O, on: &mut W) -> Result<(), O::Stop> {
        put_long(out, on, self.epoch)?;
        put_long(out, on, self.size)?;
        self.body.put(out, on)
    }
}

/// A number in eight bytes.
#[tactic(auto, unfolding(sf_bytes::specs::ByteForms::long_bytes))]
fn put_long<W, O: Out<W>>(out: &mut O, on: &mut W, number: u64) -> Result<(), O::Stop>
    ensures all { OnOk result (O.puts out.old on.old out.new on.new (long_bytes number)) }
    ensures part { OnErr result (O.stops out.old on.old out.new on.new) }
{
    out.put(on, &number.to_be_bytes())
}
