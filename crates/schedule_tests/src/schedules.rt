//! The same run along many schedules: with the same bytes on both outputs.

ghost use Rattle.std.specs.Prelude.{None};

use crate::batches::{CARRIED, CARRIED_REPLIES, CARRIED_TRACE};
use memory_calls::{Answer, Generator, NO_FAULTS, Wanted, call_along, hold_answer};
use sf_outside::{Chooser, Failed, ListChooser, MemSource, Source};
use std::alloc::{AllocError, Global};
use std::test::Fail;
use test_support::{SHOP, hold_text};

/// Runs the purchases in batches of three, along a schedule, on so many partitions.
fn run<C: Chooser>(
    alloc: Global,
    number: &str,
    partitions: &str,
    chooser: &mut C,
) -> Result<Answer, AllocError> {
    let words = [
        "run",
        "shop.py",
        "--batch",
        "3",
        "--trace",
        "--schedule",
        number,
        "--partitions",
        partitions,
    ];
    let file = ("shop.py", SHOP.as_bytes());
    let mut input = MemSource::new(alloc, CARRIED.as_bytes(), &[])?;
    call_along(alloc, &words, file, &mut input, chooser, NO_FAULTS)
}

/// Asserts that an answer has the bytes of the purchases on both outputs.
fn hold_bytes(label: &str, answer: Answer) -> Result<(), Fail> {
    let wanted = Wanted {
        status: 0,
        out: CARRIED_REPLIES.as_bytes(),
        err: CARRIED_TRACE.as_bytes(),
    };
    let held = hold_answer(label, &answer, wanted);
    drop(answer);
    held
}

/// Asserts that along the schedule of this number the purchases have these bytes, on one partition and on 64.
fn hold_schedule(alloc: Global, number: &str) -> Result<(), Fail> {
    hold_bytes(number, run(alloc, number, "1", &mut Generator::new())?)?;
    hold_bytes(number, run(alloc, number, "64", &mut Generator::new())?)
}

const NUMBERS: [&str; 10] = ["0", "1", "2", "3", "4", "5", "6", "7", "8", "9"];

#[test]
fn schedules_and_partitions_change_no_byte(rt: HostRuntime) -> Result<(), Fail> {
    for number in NUMBERS {
        hold_schedule(rt.alloc(), number)?;
    }
    Ok(())
}

const PICKS: [&[u32]; 10] = [
    &[],
    &[1],
    &[2, 1, 0],
    &[0, 1, 2, 0, 1, 2, 0, 1, 2, 0, 1, 2],
    &[2, 2, 2, 2, 2, 2, 2, 2, 2, 2, 2, 2, 2, 2, 2],
    &[1, 1, 1, 1, 1, 1, 1, 1, 1, 1],
    &[4294967295, 4294967295, 4294967295, 4294967295],
    &[5, 3, 1, 4, 2, 0, 5, 3, 1, 4, 2, 0],
    &[0, 0, 0, 2, 1, 2, 1, 2, 1, 2, 1, 2, 1],
    &[7, 11, 13, 17, 19, 23, 29, 31, 37, 41, 43, 47, 53, 59, 61],
];

/// Asserts that along these picks the purchases have these bytes.
fn hold_picks(alloc: Global, picks: &[u32]) -> Result<(), Fail> {
    let mut chooser = ListChooser::new(alloc, picks)?;
    let answer = run(alloc, "0", "4", &mut chooser);
    drop(chooser);
    hold_bytes("picks", answer?)
}

#[test]
fn picks_change_no_byte(rt: HostRuntime) -> Result<(), Fail> {
    for picks in PICKS {
        hold_picks(rt.alloc(), picks)?;
    }
    Ok(())
}

/// Three picks of a generator from 0, and then two from 7.
fn picks_told(alloc: Global, chooser: &mut Generator) -> Result<String, AllocError> {
    chooser.start(0);
    let from_0 = (chooser.pick(3), chooser.pick(3), chooser.pick(3));
    chooser.start(7);
    let from_7 = (chooser.pick(3), chooser.pick(3));
    format!(in alloc; "{from_0:?} {from_7:?}")
}

/// The upper halves of the generator's first numbers from 0 and from 7, reckoned by its formula.
#[test]
fn generator_picks_the_upper_halves(rt: HostRuntime) -> Result<(), Fail> {
    let told = picks_told(rt.alloc(), &mut Generator::new());
    let wanted = "(335903614, 436792849, 2599843874) (2118330556, 4104526463)";
    hold_text(told, wanted)
}

/// An input that gives a byte at a time. It tells no content.
#[derive(Drop)]
struct SingleBytes {
    inner: MemSource,
}

impl Source for SingleBytes {
    ghost left = { λ _. None };

    ghost faults = { λ source. source.inner.faults };

    fn read(&mut self, buf: &mut [u8]) -> Result<usize, Failed> {
        let room = buf.len().min(1);
        self.inner.read(&mut buf[..room])
    }
}

/// Runs the purchases on an input that gives them a byte at a time.
fn run_bytes(alloc: Global) -> Result<Answer, AllocError> {
    let words = ["run", "shop.py", "--batch", "3", "--trace"];
    let file = ("shop.py", SHOP.as_bytes());
    let mut input = SingleBytes {
        inner: MemSource::new(alloc, CARRIED.as_bytes(), &[])?,
    };
    let mut chooser = ListChooser::new(alloc, &[])?;
    call_along(alloc, &words, file, &mut input, &mut chooser, NO_FAULTS)
}

#[test]
fn input_byte_by_byte_is_answered_alike(rt: HostRuntime) -> Result<(), Fail> {
    hold_bytes("byte by byte", run_bytes(rt.alloc())?)
}
