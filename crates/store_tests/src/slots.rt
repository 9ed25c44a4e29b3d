//! The bytes of a snapshot that is kept, which slot is read, and what is added to the history, on a disk in memory.

ghost use Rattle.sf_outside.specs.DiskModel.{Image};
ghost use Rattle.snapshot_store.specs.SlotFile.{IsNew};

use crate::kept::{NO_PROGRAM, PROGRAM_A, content, keep, keep_first, new_disk, put};
use sf_outside::{Disk, Failed, StoreFile};
use snapshot_store::{SnapFault, append_history, newest};
use std::alloc::{AllocError, Global};
use std::test::Fail;
use test_support::{hold_table, hold_text};
use value_texts::{bytes_of, digits_of};

/// The epoch of the newest snapshot, or none where there is none.
fn newest_epoch<D: Disk>(alloc: Global, disk: &mut D) -> Result<Option<u64>, SnapFault> {
    Ok(newest(alloc, disk)?.map(|found| found.epoch))
}

/// The same as a text.
fn epoch_told(alloc: Global, found: Result<Option<u64>, SnapFault>) -> Result<String, AllocError> {
    match found {
        Ok(Some(epoch)) => format!(in alloc; "epoch {epoch}"),
        Ok(None) => String::from_str(alloc, "no snapshot"),
        Err(SnapFault::Bad { slot }) => format!(in alloc; "slot {slot} is bad"),
        Err(SnapFault::Failed) => String::from_str(alloc, "failed"),
        Err(SnapFault::NoMemory) => Err(AllocError),
    }
}

/// The bytes of slot 1 and of the log of odd epochs, and the newest epoch, after a snapshot is kept.
fn first_kept(alloc: Global) -> Result<String, SnapFault> {
    let mut disk = new_disk(alloc)?;
    keep_first(alloc, &mut disk, &PROGRAM_A)?;
    let slot = content(alloc, &mut disk, StoreFile::Snap1);
    let log = content(alloc, &mut disk, StoreFile::Log1);
    let epoch = newest_epoch(alloc, &mut disk);
    drop(disk);
    let slot = digits_of(alloc, slot?.as_slice())?;
    let log = digits_of(alloc, log?.as_slice())?;
    Ok(format!(in alloc; "{slot}, {log}, {epoch:?}")?)
}

/// An open gate, epoch 1, the length 29, and a body with the program `a`.
const FIRST_SLOT: &str = "a5 0000000000000001 000000000000001d \
    00000001 61 00000000 0000000000000000 0000000000000000 00000000";

#[test]
fn the_first_snapshot_takes_slot_1(rt: HostRuntime) -> Result<(), Fail> {
    let slot = FIRST_SLOT.replace(rt.alloc(), ' ', "")?;
    let wanted = format!(in rt.alloc(); "{slot}, 00, Ok(Some(1))")?;
    hold_text(first_kept(rt.alloc()), wanted.as_str())
}

/// Keeps one snapshot, and then another.
fn keep_two<D: Disk>(alloc: Global, disk: &mut D) -> Result<(), SnapFault>
    requires { (image : Image) → (D.facts disk.old).may_leave image → IsNew image }
{
    keep_first(alloc, disk, &PROGRAM_A)?;
    keep(alloc, disk, 2, &NO_PROGRAM)
}

/// How long slot 0 is, and the newest epoch, after two snapshots are kept.
fn two_kept(alloc: Global) -> Result<String, SnapFault> {
    let mut disk = new_disk(alloc)?;
    keep_two(alloc, &mut disk)?;
    let length = disk.len(StoreFile::Snap0);
    let epoch = newest_epoch(alloc, &mut disk);
    drop(disk);
    Ok(format!(in alloc; "{length:?}, {epoch:?}")?)
}

#[test]
fn the_second_takes_slot_0(rt: HostRuntime) -> Result<(), Fail> {
    hold_text(two_kept(rt.alloc()), "Ok(45), Ok(Some(2))")
}

/// Adds bytes to the history of a new store.
fn add<D: Disk>(disk: &mut D, at: u64, bytes: &[u8]) -> Result<(), Failed>
    requires { (image : Image) → (D.facts disk.old).may_leave image → IsNew image }
    ensures { (image : Image) → (D.facts disk.new).may_leave image → IsNew image }
{
    append_history(disk, at, bytes)
}

/// The history after three bytes are added to it, one in place of the second of them, and none.
fn added(alloc: Global) -> Result<String, SnapFault> {
    let mut disk = new_disk(alloc)?;
    add(&mut disk, 0, &[1, 2, 3])?;
    add(&mut disk, 1, &[7])?;
    add(&mut disk, 9, &[])?;
    let history = content(alloc, &mut disk, StoreFile::Hist);
    drop(disk);
    Ok(digits_of(alloc, history?.as_slice())?)
}

#[test]
fn bytes_are_added_to_the_history(rt: HostRuntime) -> Result<(), Fail> {
    hold_text(added(rt.alloc()), "010703")
}

/// What is found on a disk whose slots begin with these bytes.
fn found_in(alloc: Global, first: &[u8], second: &[u8]) -> Result<Option<u64>, SnapFault> {
    let mut disk = new_disk(alloc)?;
    put(&mut disk, StoreFile::Snap0, first)?;
    put(&mut disk, StoreFile::Snap1, second)?;
    let epoch = newest_epoch(alloc, &mut disk);
    drop(disk);
    epoch
}

/// The same of two slots whose bytes a text tells with a comma between them.
fn told(alloc: Global, text: &str) -> Result<String, Fail> {
    let (first, second) = text.split_once(',').ok_or("no two slots")?;
    let first = bytes_of(alloc, first)?;
    let second = bytes_of(alloc, second)?;
    let found = found_in(alloc, first.as_slice(), second.as_slice());
    Ok(epoch_told(alloc, found)?)
}

const SLOTS: &str = "
    empty files          | ,                                      | no snapshot
    gates alone          | a5, a5                                 | no snapshot
    closed gates         | 00 07, 01 07                           | no snapshot
    zeros in slot 1      | , a5 0000000000                        | slot 1 is bad
    zeros in both        | a5 0000000000, a5 0000000000           | slot 0 is bad
    a body of 2^62 bytes | , a5 0000000000000001 4000000000000000 | slot 1 is bad
";

#[test]
fn a_slot_is_closed_or_bad(rt: HostRuntime) -> Result<(), Fail> {
    hold_table(rt.alloc(), SLOTS, 6, told)
}
