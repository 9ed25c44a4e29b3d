//! A disk that fails: each call in turn, over a session of three batches and two checkpoints, and what the next run on it says.

use crate::runs::{Run, answer_on, disk, run_on, runs_on};
use memory_calls::Answer;
use sf_outside::MemDisk;
use std::alloc::{AllocError, Global};
use std::test::Fail;
use test_support::NUM;

const REPLIES: &str = r#"{"id":"a","ok":"p","seq":1}
{"id":"b","ok":1,"seq":2}
{"id":"c","ok":1,"seq":3}
"#;

const THREE: Run = Run {
    label: "three requests",
    words: &[
        "run", "a.py", "--store", "s", "--batch", "1", "--every", "2",
    ],
    program: NUM,
    input: r#"{"id":"a","class":"Num","new":["p",1]}
{"id":"b","class":"Num","key":"p","method":"get","args":[]}
{"id":"c","class":"Num","key":"p","method":"get","args":[]}
"#,
    unread: &[],
    status: 0,
    out: REPLIES,
    err: "",
};

/// What a session says of the fault of a call.
#[derive(Clone, Copy)]
enum Told {
    /// It ended before that call.
    Nothing,
    /// The fault, behind some first replies.
    Fault,
    Other,
}

fn told_by(answer: &Answer) -> Told {
    if answer.status == 0 {
        return Told::Nothing;
    }
    let is_told = answer.status == 5 && answer.err.bytes() == b"stateflow: disk fault\n".as_slice();
    if is_told && REPLIES.as_bytes().starts_with(answer.out.bytes()) {
        return Told::Fault;
    }
    Told::Other
}

fn told_on(alloc: Global, disk: &mut MemDisk) -> Result<Told, AllocError> {
    let answer = answer_on(alloc, disk, &THREE)?;
    let told = told_by(&answer);
    drop(answer);
    Ok(told)
}

/// Whether the session met the fault of a call with this number, and the next run prints all replies.
fn survives(alloc: Global, number: u64) -> Result<bool, Fail> {
    let mut disk = disk(alloc, &[number])?;
    let told = told_on(alloc, &mut disk);
    let again = runs_on(alloc, &mut disk, &THREE);
    drop(disk);
    match told? {
        Told::Nothing => Ok(false),
        Told::Other => Err(Fail::from("another end than that of a disk fault")),
        Told::Fault if again? => Ok(true),
        Told::Fault => Err(Fail::from("the next run says something else")),
    }
}

#[test]
fn each_disk_call_fails_in_turn(rt: HostRuntime) -> Result<(), Fail> {
    let mut met = 0;
    for number in 1..400 {
        if !survives(rt.alloc(), number)? {
            break;
        }
        met = number;
    }
    assert!(rt; 40 < met && met < 399, "{met}");
    Ok(())
}

/// A run that fails where it prints something although this call fails.
fn print_nothing(alloc: Global, number: u64) -> Result<(), Fail> {
    let failed = Run {
        status: 5,
        out: "",
        err: "stateflow: disk fault\n",
        ..THREE
    };
    let mut disk = disk(alloc, &[number])?;
    let ran = run_on(alloc, &mut disk, &failed);
    drop(disk);
    ran
}

#[test]
fn nothing_is_printed_where_the_first_sync_fails(rt: HostRuntime) -> Result<(), Fail> {
    print_nothing(rt.alloc(), 2)
}
