//! As many bytes as may be read, and lines as long as they may be.

use crate::audited::audited;
use std::alloc::Global;
use std::test::Fail;
use test_support::{Case, hold_cases};

/// An entry of 76 bytes.
const ENTRY: &str =
    "{\"class\":\"Item\",\"id\":\"a\",\"new\":[\"apple\",3]}\n{\"id\":\"a\",\"ok\":\"apple\",\"seq\":1}\n";

/// One of 75 bytes whose reply is another.
const OTHER: &str =
    "{\"class\":\"Item\",\"id\":\"a\",\"new\":[\"apple\",3]}\n{\"id\":\"a\",\"ok\":\"pear\",\"seq\":1}\n";

/// Of a run, and of the number of bytes that may be read.
const LIMITS: [Case<'static, (&str, u64)>; 7] = [
    ("as many as there are", (ENTRY, 76), "serial 1"),
    ("one less", (ENTRY, 75), "too long"),
    ("the first line", (ENTRY, 44), "too long"),
    ("none", (ENTRY, 0), "too long"),
    ("none of none", ("", 0), "serial 0"),
    (
        "an entry that differs",
        (OTHER, 75),
        "entry 1: {\"id\":\"a\",\"ok\":\"apple\",\"seq\":1}, not {\"id\":\"a\",\"ok\":\"pear\",\"seq\":1}",
    ),
    (
        "one that differs in a byte that may not be read",
        (OTHER, 74),
        "too long",
    ),
];

#[test]
fn run_of_which_no_more_may_be_read_is_too_long(rt: HostRuntime) -> Result<(), Fail> {
    hold_cases(rt.alloc(), &LIMITS, |alloc, (run, limit)| {
        audited(alloc, *limit, run.as_bytes())
    })
}

/// So many bytes that no line ends, behind this front.
fn long_run(alloc: Global, front: &str, count: usize) -> Result<Vec<u8>, Fail> {
    let mut run = Vec::from_slice(alloc, front.as_bytes())?;
    for _ in 0..count {
        run.push(b' ')?;
    }
    Ok(run)
}

/// What an audit that may read so many bytes tells of a run with a long line.
fn told(alloc: Global, front: &str, count: usize, limit: u64) -> Result<String, Fail> {
    let run = long_run(alloc, front, count)?;
    let told = audited(alloc, limit, run.as_slice());
    drop(run);
    told
}

/// The first line of the entry, with its end.
const ASKS: &str = "{\"class\":\"Item\",\"id\":\"a\",\"new\":[\"apple\",3]}\n";

/// Of what stands before a long line, how long it is, and how many bytes may be read.
const LONG_LINES: [Case<'static, (&str, usize, u64)>; 5] = [
    (
        "a request of the longest",
        ("", 1_048_577, 1_048_576),
        "too long",
    ),
    (
        "one of a byte more",
        ("", 1_048_578, 1_048_577),
        "bad line 1",
    ),
    (
        "a reply longer than a request",
        (ASKS, 1_048_578, 1_048_621),
        "too long",
    ),
    (
        "a reply of the longest",
        (ASKS, 4_194_305, 4_194_348),
        "too long",
    ),
    (
        "one of a byte more",
        (ASKS, 4_194_306, 4_194_349),
        "bad line 2",
    ),
];

#[test]
fn line_is_bad_as_soon_as_it_is_too_long(rt: HostRuntime) -> Result<(), Fail> {
    hold_cases(rt.alloc(), &LONG_LINES, |alloc, (front, count, limit)| {
        told(alloc, front, *count, *limit)
    })
}
