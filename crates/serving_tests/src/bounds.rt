//! A program of the greatest length, and one with one byte more.

use memory_calls::{Call, NO_FAULTS, Wanted, hold_call};
use std::alloc::{AllocError, Global};
use std::process::Abort;
use std::test::Fail;
use test_support::COUNTER;

/// The words of a run.
const RUN: [&str; 4] = ["run", "counter.py", "--batch", "1"];

/// The most bytes that a program may have.
const LONGEST_PROGRAM: usize = 1_048_576;

/// The counter, filled up to this length with empty lines.
fn long_counter(alloc: Global, length: usize) -> Result<Vec<u8>, AllocError> {
    let mut text = Vec::from_slice(alloc, COUNTER.as_bytes())?;
    text.resize(length, b'\n')?;
    Ok(text)
}

/// Asserts that a run of the counter with this length ends with a status, with nothing on its output, and tells this line.
fn hold_length(
    rt: &impl Abort,
    alloc: Global,
    length: usize,
    status: u8,
    line: &[u8],
) -> Result<(), Fail> {
    let text = long_counter(alloc, length)?;
    assert_eq!(rt; text.len(), length);
    let made = Call {
        words: &RUN,
        file: "counter.py",
        text: &text,
        input: b"",
        faults: NO_FAULTS,
    };
    let wanted = Wanted {
        status,
        out: b"",
        err: line,
    };
    hold_call(alloc, "a program of this length", made, wanted)
}

#[test]
fn longest_program_is_run_and_a_longer_one_refused(rt: HostRuntime) -> Result<(), Fail> {
    let refusal = b"stateflow: counter.py:1:1: TooLong\n";
    hold_length(&rt, rt.alloc(), LONGEST_PROGRAM, 0, b"")?;
    hold_length(&rt, rt.alloc(), LONGEST_PROGRAM + 1, 1, refusal)
}
