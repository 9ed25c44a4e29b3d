//! The bytes of a record, added and read on a disk in memory.

use crate::kept::{RECORD, content, keep_and_add, new_disk, put};
use request_log::{LogFault, next};
use sf_outside::StoreFile;
use snapshot_store::SnapFault;
use std::alloc::{AllocError, Global};
use std::test::Fail;
use test_support::{hold_cases, hold_text};

/// The place of the next gate after a snapshot is kept and a batch is added, and whether the log of epoch 1 is the record.
fn added(alloc: Global) -> Result<String, SnapFault> {
    let mut disk = new_disk(alloc)?;
    let next = keep_and_add(alloc, &mut disk);
    let log = content(alloc, &mut disk, StoreFile::Log1);
    drop(disk);
    let log = log?;
    let is_record = log.as_slice() == RECORD.as_slice();
    Ok(format!(in alloc; "{next:?}, {is_record}")?)
}

#[test]
fn a_record_is_added(rt: HostRuntime) -> Result<(), Fail> {
    hold_text(added(rt.alloc()), "Ok(58), true")
}

/// What stands at a place of the log of these bytes: a record, by the place of the gate behind it, or none.
fn next_gate(alloc: Global, log: &[u8], at: u64) -> Result<Option<u64>, LogFault> {
    let Ok(mut disk) = new_disk(alloc) else {
        return Err(LogFault::Failed);
    };
    put(&mut disk, StoreFile::Log1, log)?;
    let found = next(alloc, &mut disk, StoreFile::Log1, at);
    drop(disk);
    Ok(found?.map(|found| found.next))
}

/// What stands at a place of the log that a record is up to a length.
fn gate_of_record(alloc: Global, length: usize, at: u64) -> Result<String, Fail> {
    Ok(gate_told(alloc, &RECORD[..RECORD.len().min(length)], at)?)
}

/// What stands at a place of a log, as a text.
fn gate_told(alloc: Global, log: &[u8], at: u64) -> Result<String, AllocError> {
    match next_gate(alloc, log, at) {
        Ok(Some(next)) => format!(in alloc; "a record up to {next}"),
        Ok(None) => String::from_str(alloc, "the end"),
        Err(LogFault::Bad { at }) => format!(in alloc; "bad at {at}"),
        Err(LogFault::Failed) => String::from_str(alloc, "failed"),
        Err(LogFault::NoMemory) => Err(AllocError),
    }
}

#[test]
fn a_log_that_is_cut_is_bad_where_a_gate_or_a_record_is_cut(rt: HostRuntime) -> Result<(), Fail> {
    let cases = [
        ("the whole record", (59, 0), "a record up to 58"),
        ("the gate behind it", (59, 58), "the end"),
        ("no gate behind it", (58, 0), "a record up to 58"),
        ("the gate that is cut off", (58, 58), "bad at 58"),
        ("a body without its last byte", (57, 0), "bad at 0"),
        ("half a body", (30, 0), "bad at 0"),
        ("half a length", (3, 0), "bad at 0"),
        ("a gate alone", (1, 0), "bad at 0"),
        ("no byte", (0, 0), "bad at 0"),
    ];
    hold_cases(rt.alloc(), &cases, |alloc, (length, at)| {
        gate_of_record(alloc, *length, *at)
    })
}

#[test]
fn a_record_that_claims_more_than_there_is_is_bad(rt: HostRuntime) -> Result<(), Fail> {
    let told = gate_told(rt.alloc(), &[0xA5, 255, 255, 255, 255, 0], 0);
    hold_text(told, "bad at 0")
}
