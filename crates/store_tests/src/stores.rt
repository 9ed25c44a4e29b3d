//! A store that is found again, on a disk in memory.

use crate::kept::{NO_PROGRAM, RECORD, failing_disk, keep_and_add, keep_first, new_disk, put};
use recovery::{OpenFault, Opened, reopen};
use sf_outside::{MemDisk, StoreFile};
use snapshot_store::SnapFault;
use std::alloc::{AllocError, Global};
use std::test::Fail;
use test_support::{hold_cases, hold_table, hold_text};
use value_texts::bytes_of;

/// That a store is new, or its epoch, how many batches it has and from where, and where the log ends.
fn opened_told(alloc: Global, opened: &Opened) -> Result<String, AllocError> {
    match opened {
        Opened::New => String::from_str(alloc, "new"),
        Opened::Old {
            epoch,
            batches,
            at,
            ..
        } => {
            let from = batches.get(0).map(|first| first.at).unwrap_or(*at);
            format!(in alloc;
                "epoch {epoch}, {} batches from {from} to {at}",
                batches.len()
            )
        }
    }
}

/// What a disk has when it is found again, or where it is bad.
fn reopened(alloc: Global, disk: &mut MemDisk) -> Result<String, AllocError> {
    match reopen(alloc, disk) {
        Ok(opened) => {
            let told = opened_told(alloc, &opened);
            drop(opened);
            told
        }
        Err(OpenFault::Bad { file, at }) => format!(in alloc; "{file:?} is bad at {at}"),
        Err(OpenFault::Failed) => String::from_str(alloc, "failed"),
        Err(OpenFault::NoMemory) => Err(AllocError),
    }
}

/// What a store is whose slots begin with these bytes.
fn told_of_slots(alloc: Global, first: &[u8], second: &[u8]) -> Result<String, SnapFault> {
    let mut disk = new_disk(alloc)?;
    put(&mut disk, StoreFile::Snap0, first)?;
    put(&mut disk, StoreFile::Snap1, second)?;
    let told = reopened(alloc, &mut disk);
    drop(disk);
    Ok(told?)
}

/// The same of two slots whose bytes a text tells with a comma between them.
fn told(alloc: Global, text: &str) -> Result<String, Fail> {
    let (first, second) = text.split_once(',').ok_or("no two slots")?;
    let first = bytes_of(alloc, first)?;
    let second = bytes_of(alloc, second)?;
    Ok(told_of_slots(alloc, first.as_slice(), second.as_slice())?)
}

const SLOTS: &str = "
    two gates alone       | a5, a5          | new
    an open slot of zeros | , a5 0000000000 | Snap1 is bad at 0
";

#[test]
fn a_store_without_a_snapshot_is_new_or_bad(rt: HostRuntime) -> Result<(), Fail> {
    hold_table(rt.alloc(), SLOTS, 2, told)
}

/// Where a record that is added ends, and what the store then is.
fn added(alloc: Global) -> Result<String, SnapFault> {
    let mut disk = new_disk(alloc)?;
    let end = keep_and_add(alloc, &mut disk);
    let told = reopened(alloc, &mut disk);
    drop(disk);
    Ok(format!(in alloc; "{end:?}: {}", told?)?)
}

#[test]
fn a_snapshot_and_a_batch_are_found(rt: HostRuntime) -> Result<(), Fail> {
    let wanted = "Ok(58): epoch 1, 1 batches from 0 to 58";
    hold_text(added(rt.alloc()), wanted)
}

/// What a store is that keeps a snapshot, and whose log is a record up to this length.
fn told_of_log(alloc: Global, length: &usize) -> Result<String, Fail> {
    let mut disk = new_disk(alloc)?;
    keep_first(alloc, &mut disk, &NO_PROGRAM)?;
    put(
        &mut disk,
        StoreFile::Log1,
        &RECORD[..RECORD.len().min(*length)],
    )?;
    let told = reopened(alloc, &mut disk);
    drop(disk);
    Ok(told?)
}

#[test]
fn a_log_that_is_cut_is_bad_at_a_gate(rt: HostRuntime) -> Result<(), Fail> {
    let cases = [
        ("the whole record", 59, "epoch 1, 1 batches from 0 to 58"),
        ("no gate behind the body", 58, "Log1 is bad at 58"),
        ("a body without its last byte", 57, "Log1 is bad at 0"),
        ("half a body", 30, "Log1 is bad at 0"),
    ];
    hold_cases(rt.alloc(), &cases, told_of_log)
}

/// Whether a store has a snapshot and a batch where both were kept, and else what it had before or after.
fn is_before_or_after(opened: &Opened, added: bool) -> bool {
    match opened {
        Opened::New => !added,
        Opened::Old { batches, .. } => batches.len() == 1 || !added && batches.is_empty(),
    }
}

/// Whether a store is found as it was before or after the call of its disk that failed.
fn is_found_after_a_fault(alloc: Global, call: u64) -> Result<bool, SnapFault> {
    let mut disk = failing_disk(alloc, &[call])?;
    let added = keep_and_add(alloc, &mut disk).is_ok();
    let found = reopen(alloc, &mut disk);
    drop(disk);
    match found {
        Ok(opened) => {
            let is_found = is_before_or_after(&opened, added);
            drop(opened);
            Ok(is_found)
        }
        Err(OpenFault::Failed) => Ok(added),
        Err(_) => Ok(false),
    }
}

#[test]
fn a_call_that_fails_leaves_the_store_before_or_after(rt: HostRuntime) -> Result<(), Fail> {
    for call in 2..26u64 {
        assert!(rt; is_found_after_a_fault(rt.alloc(), call)?, "{call}");
    }
    Ok(())
}
