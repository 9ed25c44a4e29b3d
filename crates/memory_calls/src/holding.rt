//! Calls that are held to what they answer and write.

use crate::{Answer, Faults, call};
use std::alloc::Global;
use std::test::Fail;

/// A call with words, where a file has a text, on an input, and the numbers of the devices' calls that are to fail.
#[derive(Clone, Copy)]
pub struct Call<'a> {
    pub words: &'a [&'a str],
    pub file: &'a str,
    pub text: &'a [u8],
    pub input: &'a [u8],
    pub faults: Faults<'a>,
}

/// The status that is wanted of a call, and what it is to write on its output and on its error stream.
#[derive(Clone, Copy)]
pub struct Wanted<'a> {
    pub status: u8,
    pub out: &'a [u8],
    pub err: &'a [u8],
}

/// The first of these that is not so, or nothing.
fn other_part(answer: &Answer, wanted: Wanted<'_>) -> Option<&'static str> {
    if answer.status != wanted.status {
        Some("the status")
    } else if answer.out.bytes() != wanted.out {
        Some("the output")
    } else if answer.err.bytes() != wanted.err {
        Some("the error stream")
    } else {
        None
    }
}

/// Fails unless a call answered and wrote what is wanted.
pub fn hold_answer(label: &str, answer: &Answer, wanted: Wanted<'_>) -> Result<(), Fail> {
    match other_part(answer, wanted) {
        Some(part) => Err(Fail::new(format_args!(
            "{part} of {label}: status {}, output {:?}, error stream {:?}",
            answer.status,
            answer.out.bytes(),
            answer.err.bytes()
        ))),
        None => Ok(()),
    }
}

/// Makes a call, and fails unless it answers and writes what is wanted.
pub fn hold_call(
    alloc: Global,
    label: &str,
    made: Call<'_>,
    wanted: Wanted<'_>,
) -> Result<(), Fail> {
    let Call {
        words,
        file,
        text,
        input,
        faults,
    } = made;
    let answer = call(alloc, words, file, text, input, faults)?;
    let held = hold_answer(label, &answer, wanted);
    drop(answer);
    held
}
