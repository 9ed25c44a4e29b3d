//! A stop at each moment of a session on a store, and a fault of each call of its devices: what the next run then answers.

use crate::runs::{Run, answer_on, answer_with, disk, run_on};
use memory_calls::{Answer, Faults, NO_FAULTS};
use sf_outside::MemDisk;
use std::alloc::{AllocError, Global};
use std::test::Fail;
use test_support::SHOP;

const BOTH: Run = Run {
    label: "both requests",
    words: &[
        "run", "a.py", "--store", "s", "--batch", "1", "--every", "1",
    ],
    program: SHOP,
    input: r#"{"id":"a","class":"Item","new":["apple",3]}
{"id":"b","class":"Item","key":"apple","method":"price","args":[]}
"#,
    unread: &[],
    status: 0,
    out: r#"{"id":"a","ok":"apple","seq":1}
{"id":"b","ok":3,"seq":2}
"#,
    err: "",
};

/// What a crash leaves behind the call of this number, where this byte stands for any.
fn image_of(alloc: Global, disk: &MemDisk, moment: u64, fill: u8) -> Result<MemDisk, Fail> {
    if moment > disk.calls() {
        return Err(Fail::from("there was no such call"));
    }
    Ok(disk.image(alloc, moment, fill)?)
}

/// Fails unless the run on such a disk answers both requests.
fn goes_on_from(alloc: Global, disk: &MemDisk, moment: u64, fill: u8) -> Result<(), Fail> {
    let mut image = image_of(alloc, disk, moment, fill)?;
    let ran = run_on(alloc, &mut image, &BOTH);
    drop(image);
    ran
}

/// The same at each moment from this one on, with two bytes that stand for any.
fn goes_on_since(alloc: Global, disk: &MemDisk, first: u64) -> Result<(), Fail> {
    for moment in first..=disk.calls() {
        goes_on_from(alloc, disk, moment, 0)?;
        goes_on_from(alloc, disk, moment, 0xa5)?;
    }
    Ok(())
}

/// Fails unless the run answers both requests, and does so again at each of its moments.
fn goes_on_everywhere(alloc: Global, disk: &mut MemDisk) -> Result<(), Fail> {
    run_on(alloc, disk, &BOTH)?;
    goes_on_since(alloc, disk, 0)
}

#[test]
fn a_run_goes_on_from_each_moment(rt: HostRuntime) -> Result<(), Fail> {
    let mut disk = disk(rt.alloc(), &[])?;
    let held = goes_on_everywhere(rt.alloc(), &mut disk);
    drop(disk);
    held
}

/// The status of an answer.
fn status_of(answer: Result<Answer, AllocError>) -> Result<u8, AllocError> {
    let answer = answer?;
    let status = answer.status;
    drop(answer);
    Ok(status)
}

/// The status of a session whose disk call of this number fails, once the next run was held to both answers at each moment since.
fn status_at(alloc: Global, number: u64) -> Result<u8, Fail> {
    let mut disk = disk(alloc, &[number])?;
    let status = status_of(answer_on(alloc, &mut disk, &BOTH));
    let held = goes_on_since(alloc, &disk, number.saturating_sub(1));
    drop(disk);
    held?;
    Ok(status?)
}

/// How many of the first calls fail a session by this status, before one ends without a fault.
fn count_with<F: Fn(Global, u64) -> Result<u8, Fail>>(
    alloc: Global,
    wanted: u8,
    status_at: F,
) -> Result<u64, Fail>
    requires { F.IsAlwaysCallable status_at }
{
    for number in 1..400 {
        let status = status_at(alloc, number)?;
        if status == 0 {
            return Ok(number - 1);
        }
        if status != wanted {
            return Err(Fail::new(format_args!("call {number}: status {status}")));
        }
    }
    Err(Fail::from("no session without a fault"))
}

#[test]
fn a_run_goes_on_from_each_moment_behind_a_disk_fault(rt: HostRuntime) -> Result<(), Fail> {
    let count = count_with(rt.alloc(), 5, status_at)?;
    assert!(rt; 40 < count, "{count}");
    Ok(())
}

/// The first request's id with another creation, which is done where the first one isn't in the history.
const FIRST_AGAIN: Run = Run {
    label: "the first request's id again",
    input: r#"{"id":"a","class":"Item","new":["pear",1]}
"#,
    out: r#"{"bad":"id reused","line":1}
"#,
    ..BOTH
};

/// The same of the second one.
const SECOND_AGAIN: Run = Run {
    label: "the second request's id again",
    input: r#"{"id":"b","class":"Item","new":["plum",1]}
"#,
    ..FIRST_AGAIN
};

/// Fails unless the history has each request of which a line was begun.
fn keeps_begun(alloc: Global, disk: &mut MemDisk, answer: &Answer) -> Result<(), Fail> {
    let begun = answer.out.bytes();
    if !BOTH.out.as_bytes().starts_with(begun) {
        return Err(Fail::from("another text was begun"));
    }
    if !begun.is_empty() {
        run_on(alloc, disk, &FIRST_AGAIN)?;
    }
    if begun.len() > FIRST_LINE.len() {
        run_on(alloc, disk, &SECOND_AGAIN)?;
    }
    run_on(alloc, disk, &BOTH)
}

const FIRST_LINE: &str = r#"{"id":"a","ok":"apple","seq":1}
"#;

/// The status of a session with such faults, once the next runs were held to what was begun.
fn status_with(alloc: Global, faults: Faults<'_>) -> Result<u8, Fail> {
    let mut disk = disk(alloc, &[])?;
    let answer = answer_with(alloc, &mut disk, &BOTH, faults)?;
    let status = answer.status;
    let held = keeps_begun(alloc, &mut disk, &answer);
    drop(answer);
    drop(disk);
    held?;
    Ok(status)
}

/// The same where this read of the input fails.
fn status_at_read(alloc: Global, number: u64) -> Result<u8, Fail> {
    let input = [number];
    let faults = Faults {
        input: &input,
        ..NO_FAULTS
    };
    status_with(alloc, faults)
}

/// The same where this call of the output fails.
fn status_at_write(alloc: Global, number: u64) -> Result<u8, Fail> {
    let out = [number];
    let faults = Faults {
        out: &out,
        ..NO_FAULTS
    };
    status_with(alloc, faults)
}

#[test]
fn what_was_begun_is_kept_where_a_read_fails(rt: HostRuntime) -> Result<(), Fail> {
    let count = count_with(rt.alloc(), 3, status_at_read)?;
    assert!(rt; 1 <= count, "{count}");
    Ok(())
}

#[test]
fn what_was_begun_is_kept_where_a_write_fails(rt: HostRuntime) -> Result<(), Fail> {
    let count = count_with(rt.alloc(), 4, status_at_write)?;
    assert!(rt; 2 <= count, "{count}");
    Ok(())
}
