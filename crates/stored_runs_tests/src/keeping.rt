//! What a run keeps, and what the next one on the same store finds.

use crate::runs::{ONE_BY_ONE, Run, disk, each_runs, run_on};
use sf_outside::{Disk, MemDisk, StoreFile};
use std::alloc::Global;
use std::test::Fail;
use test_support::{NUM, SHOP, hold_text};
use value_texts::digits_of;

const CREATION: Run = Run {
    label: "an item is made",
    words: ONE_BY_ONE,
    program: SHOP,
    input: r#"{"id":"a","class":"Item","new":["apple",3]}
"#,
    unread: &[],
    status: 0,
    out: r#"{"id":"a","ok":"apple","seq":1}
"#,
    err: "",
};

const NOTHING: Run = Run {
    label: "nothing is asked for",
    input: "",
    out: "",
    ..CREATION
};

/// A gate, the length of the body, one new request, one committed place, and the closed gate behind it.
const RECORD: &str = "a5 00000035 00000001 00000001 61 01 00000000 00000002 04 00000005 6170706c65 \
    03 00000000000000000000000000000003 00000001 00000000 00";

/// The bytes of a file, of which there are at most 2,000, in digits.
fn bytes_told(alloc: Global, disk: &mut MemDisk, file: StoreFile) -> Result<String, Fail> {
    let mut bytes = [0; 2_000];
    match disk.read_at(file, 0, &mut bytes) {
        Ok(count) => Ok(digits_of(alloc, &bytes[..count])?),
        Err(_) => Err(Fail::from("a file can't be read")),
    }
}

/// The log of epoch 1 behind a run on a disk.
fn log_behind_on(alloc: Global, disk: &mut MemDisk, run: &Run) -> Result<String, Fail> {
    run_on(alloc, disk, run)?;
    bytes_told(alloc, disk, StoreFile::Log1)
}

/// The same on a disk of its own.
fn log_behind(alloc: Global, run: &Run) -> Result<String, Fail> {
    let mut disk = disk(alloc, &[])?;
    let told = log_behind_on(alloc, &mut disk, run);
    drop(disk);
    told
}

#[test]
fn a_batch_is_in_the_log_to_the_byte(rt: HostRuntime) -> Result<(), Fail> {
    let wanted = RECORD.replace(rt.alloc(), ' ', "")?;
    hold_text(log_behind(rt.alloc(), &CREATION), wanted.as_str())
}

/// The creation, which is kept by a checkpoint behind its batch.
const KEPT: Run = Run {
    label: "an item is made, and kept",
    words: &[
        "run", "a.py", "--store", "s", "--batch", "1", "--every", "1",
    ],
    ..CREATION
};

/// The request and its outcome.
const ENTRY: &str = "00000001 61 01 00000000 00000002 04 00000005 6170706c65 \
    03 00000000000000000000000000000003 00 06 00000000 00000005 6170706c65";

/// One entry in 56 bytes, one record with its three fields, and no request that waits.
const HEAD_END: &str = "00000001 0000000000000038 0000000000000001 00000000 00000005 6170706c65 \
    00000003 04 00000005 6170706c65 03 00000000000000000000000000000003 \
    03 00000000000000000000000000000000 00000000";

/// The history and the log of epoch 2 behind a run on a disk, and whether its slot ends as it has to.
fn kept_behind_on(alloc: Global, disk: &mut MemDisk) -> Result<String, Fail> {
    run_on(alloc, disk, &KEPT)?;
    let history = bytes_told(alloc, disk, StoreFile::Hist)?;
    let log = bytes_told(alloc, disk, StoreFile::Log0)?;
    let slot = bytes_told(alloc, disk, StoreFile::Snap0)?;
    let end = HEAD_END.replace(alloc, ' ', "")?;
    let ends = slot.ends_with(end.as_str());
    Ok(format!(in alloc; "{history}, {log}, {ends}")?)
}

/// The same on a disk of its own.
fn kept_behind(alloc: Global) -> Result<String, Fail> {
    let mut disk = disk(alloc, &[])?;
    let told = kept_behind_on(alloc, &mut disk);
    drop(disk);
    told
}

#[test]
fn a_checkpoint_adds_to_the_history_to_the_byte(rt: HostRuntime) -> Result<(), Fail> {
    let entry = ENTRY.replace(rt.alloc(), ' ', "")?;
    let wanted = format!(in rt.alloc(); "{entry}, 00, true")?;
    hold_text(kept_behind(rt.alloc()), wanted.as_str())
}

#[test]
fn a_new_store_has_an_empty_log(rt: HostRuntime) -> Result<(), Fail> {
    hold_text(log_behind(rt.alloc(), &NOTHING), "00")
}

#[test]
fn a_repeated_request_has_its_kept_line_in_the_next_run(rt: HostRuntime) -> Result<(), Fail> {
    let again = Run {
        label: "the item is made again, and asked for its price",
        input: r#"{"id":"a","class":"Item","new":["apple",3]}
{"id":"b","class":"Item","key":"apple","method":"price","args":[]}
"#,
        out: r#"{"id":"a","ok":"apple","seq":1}
{"id":"b","ok":3,"seq":2}
"#,
        ..CREATION
    };
    each_runs(rt.alloc(), &[CREATION, again])
}

const TWO_BY_TWO: &[&str] = &["run", "a.py", "--store", "s", "--batch", "2"];

#[test]
fn a_request_that_waited_is_run_by_the_next_run(rt: HostRuntime) -> Result<(), Fail> {
    let first = Run {
        label: "the second of two waits, and then the input can't be read",
        words: TWO_BY_TWO,
        input: r#"{"id":"i","class":"Item","new":["apple",1]}
{"id":"s1","class":"Item","key":"apple","method":"update_stock","args":[1]}
"#,
        unread: &[2],
        status: 3,
        out: r#"{"id":"i","ok":"apple","seq":1}
"#,
        err: "stateflow: read fault\n",
        ..CREATION
    };
    let second = Run {
        label: "it comes again",
        words: TWO_BY_TWO,
        input: r#"{"id":"s1","class":"Item","key":"apple","method":"update_stock","args":[1]}
"#,
        out: r#"{"id":"s1","ok":true,"seq":2}
"#,
        ..CREATION
    };
    each_runs(rt.alloc(), &[first, second])
}

/// Three requests, with a checkpoint behind so many batches.
const fn three(words: &'static [&'static str]) -> Run {
    Run {
        label: "three requests",
        words,
        program: NUM,
        input: r#"{"id":"a","class":"Num","new":["p",1]}
{"id":"b","class":"Num","key":"p","method":"get","args":[]}
{"id":"c","class":"Num","key":"p","method":"get","args":[]}
"#,
        unread: &[],
        status: 0,
        out: r#"{"id":"a","ok":"p","seq":1}
{"id":"b","ok":1,"seq":2}
{"id":"c","ok":1,"seq":3}
"#,
        err: "",
    }
}

#[test]
fn checkpoints_change_nothing_that_is_answered(rt: HostRuntime) -> Result<(), Fail> {
    let alloc = rt.alloc();
    let each = three(&[
        "run", "a.py", "--store", "s", "--batch", "1", "--every", "1",
    ]);
    let second = three(&[
        "run", "a.py", "--store", "s", "--batch", "1", "--every", "2",
    ]);
    let third = three(&[
        "run", "a.py", "--store", "s", "--batch", "1", "--every", "3",
    ]);
    let none = three(&[
        "run", "a.py", "--store", "s", "--batch", "1", "--every", "64",
    ]);
    each_runs(alloc, &[each, each])?;
    each_runs(alloc, &[second, second])?;
    each_runs(alloc, &[third, third])?;
    each_runs(alloc, &[none, none])
}
