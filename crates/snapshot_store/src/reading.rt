//! Reading which head is the newest.

ghost use Rattle.std.specs.Prelude.{◌≡◌, ◌↔◌, ◌≤◌, ◌++◌, IfOk, IfSome, IsErrOf, IsTrue};
ghost use Rattle.sf_bytes.specs.ByteForms.{long_bytes};
ghost use Rattle.sf_bytes.specs.Gates.{StandsAt};
ghost use Rattle.sf_outside.specs.Causes.{Rose};
ghost use Rattle.sf_outside.specs.DiskModel.{of_file, Stays};
ghost use Rattle.snapshot_store.specs.Answers.{Answers, IsPlaced, AnswersSlot, IsPlacedSlot, SaysHead, newer_of};
ghost use Rattle.snapshot_store.specs.SlotFile.{IsEpoch, number_of, slot_file, IsOpenSlot};

use crate::fault::SnapFault;
use crate::files::slot_file;
use crate::front::{Gate, gate_of, number_at};
use sf_bytes::read_head;
use sf_outside::{Disk, StoreFile};
use sf_value::Head;
use std::alloc::{AllocError, Global};

/// The greatest epoch.
const LAST: u64 = (1 << 63) - 1;

/// What a checkpoint kept beside the history, and its epoch.
#[derive(Drop)]
pub struct Kept {
    pub epoch: u64,
    pub head: Head,
}

/// The newest head, or none where the store is new. It takes memory by the bytes that are there.
pub fn newest<D: Disk>(alloc: Global, disk: &mut D) -> Result<Option<Kept>, SnapFault>
    ensures answer { IfSome (D.facts disk.old).seen (λ now. Answers now result) }
    ensures placed { IsPlaced result }
    ensures stays { Stays (D.facts disk.old) (D.facts disk.new) }
    ensures later { D.faults disk.old ≤ D.faults disk.new }
    ensures cause { IsErrOf result SnapFault.Failed → Rose (D.faults disk.old) (D.faults disk.new) }
    ensures mounts { D.mounts disk.new ≡ D.mounts disk.old }
{
    let first = kept_in(alloc, disk, 0)?;
    let second = kept_in(alloc, disk, 1)?;
    Ok(newer(first, second))
}

/// Of two slots the one with the greater epoch.
fn newer(first: Option<Kept>, second: Option<Kept>) -> Option<Kept>
    ensures { result ≡ newer_of first second }
{
    let Some(first) = first else {
        return second;
    };
    let Some(second) = second else {
        return Some(first);
    };
    if second.epoch < first.epoch {
        Some(first)
    } else {
        Some(second)
    }
}

/// What a slot keeps, or none where it is closed.
fn kept_in<D: Disk>(alloc: Global, disk: &mut D, slot: u32) -> Result<Option<Kept>, SnapFault>
    ensures answer { IfSome (D.facts disk.old).seen (λ now. AnswersSlot slot (of_file (slot_file slot) now) result) }
    ensures placed { IsPlacedSlot slot result }
    ensures stays { Stays (D.facts disk.old) (D.facts disk.new) }
    ensures later { D.faults disk.old ≤ D.faults disk.new }
    ensures cause { IsErrOf result SnapFault.Failed → Rose (D.faults disk.old) (D.faults disk.new) }
    ensures mounts { D.mounts disk.new ≡ D.mounts disk.old }
{
    let file = slot_file(slot);
    match gate_of(disk, file)? {
        Gate::Alone | Gate::Closed => Ok(None),
        Gate::Open => kept_open(alloc, disk, file, slot),
    }
}

/// What the open slot of this number keeps.
fn kept_open<D: Disk>(
    alloc: Global,
    disk: &mut D,
    file: StoreFile,
    slot: u32,
) -> Result<Option<Kept>, SnapFault>
    requires { IfSome (D.facts disk.old).seen (λ now. IsOpenSlot (of_file file now)) }
    ensures answer { IfSome (D.facts disk.old).seen (λ now. AnswersSlot slot (of_file file now) result) }
    ensures placed { IsPlacedSlot slot result }
    ensures stays { Stays (D.facts disk.old) (D.facts disk.new) }
    ensures later { D.faults disk.old ≤ D.faults disk.new }
    ensures cause { IsErrOf result SnapFault.Failed → Rose (D.faults disk.old) (D.faults disk.new) }
    ensures mounts { D.mounts disk.new ≡ D.mounts disk.old }
{
    let Some(epoch) = number_at(disk, file, 1)? else {
        return Err(SnapFault::Bad { slot });
    };
    let Some(len) = number_at(disk, file, 9)? else {
        return Err(SnapFault::Bad { slot });
    };
    if !is_own(epoch, slot) {
        return Err(SnapFault::Bad { slot });
    }
    kept_behind(alloc, disk, file, slot, epoch, len)
}

/// Whether the slot of this number is that of the epoch.
fn is_own(epoch: u64, slot: u32) -> bool
    ensures { IsTrue result ↔ (IsEpoch epoch × (number_of epoch ≡ slot)) }
{
    epoch > 0 && epoch <= LAST && epoch % 2 == slot as u64
}

/// What the open slot of this number keeps, which claims this epoch and so many bytes for a head.
fn kept_behind<D: Disk>(
    alloc: Global,
    disk: &mut D,
    file: StoreFile,
    slot: u32,
    epoch: u64,
    len: u64,
) -> Result<Option<Kept>, SnapFault>
    requires open { IfSome (D.facts disk.old).seen (λ now. IsOpenSlot (of_file file now)) }
    requires claims { IfSome (D.facts disk.old).seen (λ now. StandsAt (of_file file now) 1 (long_bytes epoch ++ long_bytes len)) }
    requires epoch { IsEpoch epoch }
    requires own { number_of epoch ≡ slot }
    ensures answer { IfSome (D.facts disk.old).seen (λ now. AnswersSlot slot (of_file file now) result) }
    ensures placed { IsPlacedSlot slot result }
    ensures stays { Stays (D.facts disk.old) (D.facts disk.new) }
    ensures later { D.faults disk.old ≤ D.faults disk.new }
    ensures cause { IsErrOf result SnapFault.Failed → Rose (D.faults disk.old) (D.faults disk.new) }
    ensures mounts { D.mounts disk.new ≡ D.mounts disk.old }
{
    let end = disk.len(file)?;
    if end.saturating_sub(17) < len {
        return Err(SnapFault::Bad { slot });
    }
    let mut body = vec![in alloc; 0; len as usize]?;
    let count = disk.read_at(file, 17, &mut body)?;
    if count < body.len() {
        return Err(SnapFault::Bad { slot });
    }
    match whole_head(alloc, &body)? {
        Some(head) => Ok(Some(Kept { epoch, head })),
        None => Err(SnapFault::Bad { slot }),
    }
}

/// The head whose bytes these are, with none left over.
fn whole_head(alloc: Global, bytes: &[u8]) -> Result<Option<Head>, AllocError>
    ensures { IfOk result (λ found. SaysHead bytes.now found) }
{
    let Some((head, count)) = read_head(alloc, bytes)? else {
        return Ok(None);
    };
    if count < bytes.len() {
        return Ok(None);
    }
    Ok(Some(head))
}
