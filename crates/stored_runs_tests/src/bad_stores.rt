//! Stores that a run can't use, and what it says of them.

use crate::runs::{ONE_BY_ONE, Run, disk, each_runs, run_on};
use sf_outside::{Disk, Failed, MemDisk, StoreFile};
use std::alloc::Global;
use std::test::Fail;
use test_support::{NUM, SHOP};
use value_texts::bytes_of;

const CREATION: Run = Run {
    label: "an item is made",
    words: ONE_BY_ONE,
    program: SHOP,
    input: r#"{"id":"a","class":"Item","new":["apple",3]}
"#,
    unread: &[],
    status: 0,
    out: r#"{"id":"a","ok":"apple","seq":1}
"#,
    err: "",
};

/// Puts bytes, 2,000 at most, at the start of a file of a disk.
fn put(disk: &mut MemDisk, file: StoreFile, bytes: &[u8]) -> Result<(), Failed> {
    disk.write_at(file, 0, &bytes[..bytes.len().min(2_000)])?;
    disk.sync(file)
}

fn put_digits(
    alloc: Global,
    disk: &mut MemDisk,
    file: StoreFile,
    digits: &str,
) -> Result<(), Fail> {
    let bytes = bytes_of(alloc, digits)?;
    let done = put(disk, file, bytes.as_slice());
    drop(bytes);
    match done {
        Ok(()) => Ok(()),
        Err(_) => Err(Fail::from("a file can't be written")),
    }
}

/// A run on a disk, once the slots begin with these bytes.
fn run_behind_on(
    alloc: Global,
    disk: &mut MemDisk,
    first: &str,
    second: &str,
    run: &Run,
) -> Result<(), Fail> {
    put_digits(alloc, disk, StoreFile::Snap0, first)?;
    put_digits(alloc, disk, StoreFile::Snap1, second)?;
    run_on(alloc, disk, run)
}

/// The same on a disk of its own.
pub fn run_behind(alloc: Global, first: &str, second: &str, run: &Run) -> Result<(), Fail> {
    let mut disk = disk(alloc, &[])?;
    let ran = run_behind_on(alloc, &mut disk, first, second, run);
    drop(disk);
    ran
}

#[test]
fn two_gates_alone_are_a_new_store(rt: HostRuntime) -> Result<(), Fail> {
    run_behind(rt.alloc(), "a5", "a5", &CREATION)
}

#[test]
fn an_open_slot_of_zeros_is_bad(rt: HostRuntime) -> Result<(), Fail> {
    let refused = Run {
        status: 6,
        out: "",
        err: "stateflow: bad store: snap1 at 0\n",
        ..CREATION
    };
    run_behind(rt.alloc(), "", "a5 0000000000", &refused)
}

/// Puts the first bytes of a file of a disk on another.
fn copy_first(
    from: &mut MemDisk,
    to: &mut MemDisk,
    file: StoreFile,
    most: usize,
) -> Result<(), Failed> {
    let mut bytes = [0; 2_000];
    let count = from.read_at(file, 0, &mut bytes)?;
    put(to, file, &bytes[..count.min(most)])
}

/// A file, and how many of its first bytes stand.
#[derive(Clone, Copy)]
struct Front {
    file: StoreFile,
    most: usize,
}

/// Puts a store on another disk, but of one file some first bytes alone.
fn cut(whole: &mut MemDisk, part: &mut MemDisk, front: Front) -> Result<(), Failed> {
    for file in [
        StoreFile::Log0,
        StoreFile::Log1,
        StoreFile::Snap0,
        StoreFile::Snap1,
        StoreFile::Hist,
    ] {
        let most = if file == front.file {
            front.most
        } else {
            2_000
        };
        copy_first(whole, part, file, most)?;
    }
    Ok(())
}

/// A run on a disk to which a store is copied, but of one file some first bytes alone.
fn run_on_part(
    alloc: Global,
    whole: &mut MemDisk,
    part: &mut MemDisk,
    front: Front,
    run: &Run,
) -> Result<(), Fail> {
    match cut(whole, part, front) {
        Ok(()) => run_on(alloc, part, run),
        Err(_) => Err(Fail::from("a file can't be copied")),
    }
}

/// A run on a store of whose file so many first bytes stand.
fn run_on_cut(alloc: Global, whole: &mut MemDisk, front: Front, run: &Run) -> Result<(), Fail> {
    let mut part = disk(alloc, &[])?;
    let ran = run_on_part(alloc, whole, &mut part, front, run);
    drop(part);
    ran
}

/// The log has no whole record.
const CUT: Run = Run {
    label: "a log that is cut within its record",
    status: 6,
    out: "",
    err: "stateflow: bad store: log1 at 0\n",
    ..CREATION
};

/// The log has its record, and no gate behind it.
const UNCLOSED: Run = Run {
    label: "a log that is cut behind its record",
    err: "stateflow: bad store: log1 at 58\n",
    ..CUT
};

/// So many first bytes of the log.
const fn log(most: usize) -> Front {
    Front {
        file: StoreFile::Log1,
        most,
    }
}

/// An item is made, and then the log is cut at each place in turn.
fn cut_at_each(alloc: Global, whole: &mut MemDisk) -> Result<(), Fail> {
    run_on(alloc, whole, &CREATION)?;
    for most in 0..58 {
        run_on_cut(alloc, whole, log(most), &CUT)?;
    }
    run_on_cut(alloc, whole, log(58), &UNCLOSED)?;
    run_on_cut(alloc, whole, log(59), &CREATION)
}

#[test]
fn a_log_that_is_cut_is_bad_up_to_its_closed_gate(rt: HostRuntime) -> Result<(), Fail> {
    let mut whole = disk(rt.alloc(), &[])?;
    let ran = cut_at_each(rt.alloc(), &mut whole);
    drop(whole);
    ran
}

#[test]
fn a_store_of_another_program_is_told(rt: HostRuntime) -> Result<(), Fail> {
    let other = Run {
        label: "another program",
        program: NUM,
        input: "",
        status: 7,
        out: "",
        err: "stateflow: the store holds another program\n",
        ..CREATION
    };
    each_runs(rt.alloc(), &[CREATION, other, CREATION])
}

/// A checkpoint follows behind the batch.
const KEPT: Run = Run {
    label: "an item is made, and kept",
    words: &[
        "run", "a.py", "--store", "s", "--batch", "1", "--every", "1",
    ],
    ..CREATION
};

/// The history lacks a byte.
const SHORT: Run = Run {
    label: "a history without its last byte",
    status: 6,
    out: "",
    err: "stateflow: bad store: hist at 0\n",
    ..CREATION
};

/// So many first bytes of the history.
const fn history(most: usize) -> Front {
    Front {
        file: StoreFile::Hist,
        most,
    }
}

/// Puts ten bytes behind a history of 56.
fn lengthen(disk: &mut MemDisk) -> Result<(), Fail> {
    match disk.write_at(StoreFile::Hist, 56, &[7; 10]) {
        Ok(()) => Ok(()),
        Err(_) => Err(Fail::from("the history can't be written")),
    }
}

/// An item is made and kept, and then its history is cut by a byte, not at all, and made longer.
fn history_cut_and_lengthened(alloc: Global, whole: &mut MemDisk) -> Result<(), Fail> {
    run_on(alloc, whole, &KEPT)?;
    run_on_cut(alloc, whole, history(55), &SHORT)?;
    run_on_cut(alloc, whole, history(56), &CREATION)?;
    lengthen(whole)?;
    run_on(alloc, whole, &CREATION)
}

#[test]
fn a_history_counts_as_far_as_it_is_named(rt: HostRuntime) -> Result<(), Fail> {
    let mut whole = disk(rt.alloc(), &[])?;
    let ran = history_cut_and_lengthened(rt.alloc(), &mut whole);
    drop(whole);
    ran
}
