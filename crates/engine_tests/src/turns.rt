//! What a watch in memory is told of the events of batches, in order: the operator that is to handle each, the
//! place of its request in the batch, and behind a `+` for each frame how many variables it keeps.

use crate::answers::{ASKED_OR_NOT, CALLED_BACK, ONE_BY_ONE};
use block_code::Event;
use line_driver::{Driver, Options, other_answer};
use operator_graph::{MemWatch, Note, Notes};
use std::alloc::{AllocError, Global};
use std::test::Fail;
use test_support::{Case, PING, SHOP, hold_cases};

fn event_told(alloc: Global, operator: u32, event: &Event) -> Result<String, AllocError> {
    let mut told = format!(in alloc; "{operator}:{}", event.tx)?;
    for frame in event.frames.as_slice() {
        let kept = frame.vars.len();
        told.push_str(format!(in alloc; "+{kept}")?.as_str())?;
    }
    told.push(' ')?;
    Ok(told)
}

fn note_told(alloc: Global, note: &Note) -> Result<String, AllocError> {
    match note {
        Note::Graph(_) => String::from_str(alloc, "graph "),
        Note::Step(operator, event) => event_told(alloc, *operator, event),
    }
}

fn notes_told(alloc: Global, notes: &Notes) -> Result<String, AllocError> {
    let mut told = String::new(alloc);
    for note in notes.as_slice() {
        told.push_str(note_told(alloc, note)?.as_str())?;
    }
    Ok(told)
}

/// What a watch was told, where it tells it.
fn watch_told(alloc: Global, watch: &MemWatch) -> Result<String, AllocError> {
    match watch.notes() {
        Some(notes) => notes_told(alloc, notes),
        None => Err(AllocError),
    }
}

/// What a watch is told while the lines of a table are answered as it says.
fn told(alloc: Global, text: &str, options: Options<'_>, table: &str) -> Result<String, Fail> {
    let mut driver = Driver::new(alloc, text, options)?;
    let mut watch = MemWatch::new(alloc);
    let other = other_answer(alloc, &mut driver, &mut watch, table);
    drop(driver);
    let told = watch_told(alloc, &watch);
    drop(watch);
    let other = other?;
    Ok(format!(in alloc; "{other}{}", told?)?)
}

/// A program, batches, partitions, picks and a table of lines.
type Turn = (&'static str, usize, u32, &'static [u32], &'static str);

/// The hash of `x` is 120, that of `y` is 121, that of `ann` is 96,737 and that of `apple` is 93,029,210. An entity
/// of the first class is served by the operator of its partition, and one of the second by that of the number
/// behind all partitions of the first. A frame of `go` keeps what `self.n` was, one of `poke` nothing, and that of
/// `buy_item` at its second call `total` alone.
const TURNS: [Case<'static, Turn>; 4] = [
    (
        "called back",
        (PING, 1, 4, &[], CALLED_BACK),
        "0:0 5:0 0:0 5:0+1 0:0+1+0 5:0+1+0 0:0+1 ",
    ),
    (
        "called back among 64 partitions",
        (PING, 1, 64, &[], CALLED_BACK),
        "56:0 121:0 56:0 121:0+1 56:0+1+0 121:0+1+0 56:0+1 ",
    ),
    (
        "the second request first",
        (PING, 2, 4, &[1, 0, 1, 0, 1, 0], ASKED_OR_NOT),
        "5:1 0:0 0:1 5:0 0:1 5:0 5:1+0 0:1+0 0:0 5:0+0 0:0+0 ",
    ),
    (
        "an item is sold, and another isn't",
        (SHOP, 1, 4, &[], ONE_BY_ONE),
        "2:0 2:0 2:0 5:0 5:0 2:0+3 5:0+3 2:0+1 5:0+1 5:0 5:0 2:0+3 5:0+3 2:0+1 5:0+1 5:0 ",
    ),
];

/// What a watch is told of a turn.
fn turn_told(alloc: Global, turn: &Turn) -> Result<String, Fail> {
    let (text, batch, partitions, picks, table) = turn;
    let options = Options {
        batch: *batch,
        history: 100,
        partitions: *partitions,
        picks,
    };
    told(alloc, text, options, table)
}

#[test]
fn events_are_told_in_the_order_of_the_picks(rt: HostRuntime) -> Result<(), Fail> {
    hold_cases(rt.alloc(), &TURNS, turn_told)
}
