//! Which operator serves an entity, and what a watch in memory keeps.

ghost use Rattle.std.specs.Prelude.{◌≡◌, IfOk};

use block_code::{Event, EventKind};
use operator_graph::{MemWatch, Note, Watch, operator_of, partition};
use sf_list::Sequence;
use sf_value::{Outcome, Ref, Text, Value};
use std::alloc::{AllocError, Global};
use std::test::Fail;

fn at(alloc: Global, class: u32, key: &str) -> Result<Ref, AllocError>
    ensures { IfOk result (λ at. at.class ≡ class) }
{
    Ok(Ref {
        class,
        key: Text::of(alloc, key)?,
    })
}

/// The hash of a text of one byte is the byte, and that of `apple` is 93,029,210.
#[test]
fn keys_fall_into_partitions_by_their_hash(rt: HostRuntime) -> Result<(), Fail> {
    let empty_key = partition(b"", 4);
    let one_byte_of_97 = partition(b"a", 4);
    let four_partitions = partition(b"apple", 4);
    let partitions_64 = partition(b"apple", 64);
    let one_partition = partition(b"apple", 1);
    assert_eq!(rt; (empty_key, one_byte_of_97, four_partitions), (0, 1, 2));
    assert_eq!(rt; (partitions_64, one_partition), (26, 0));
    Ok(())
}

#[test]
fn operators_of_a_class_stand_behind_those_of_the_classes_before(
    rt: HostRuntime,
) -> Result<(), Fail> {
    let first = at(rt.alloc(), 0, "apple")?;
    let fourth = at(rt.alloc(), 3, "apple")?;
    let first_class = operator_of(&first, 4);
    let fourth_class = operator_of(&fourth, 4);
    let one_partition = operator_of(&fourth, 1);
    assert_eq!(rt; (first_class, fourth_class, one_partition), (2, 14, 3));
    Ok(())
}

/// The last event of a transaction, which has come to None.
fn last_event(alloc: Global, tx: u32) -> Event {
    Event {
        tx,
        steps: 7,
        frames: Sequence::new(alloc),
        kind: EventKind::Done(Outcome::Value(Value::Nil)),
    }
}

/// The operator of a note and the transaction of its event; a graph has none.
fn step_of(note: &Note) -> (u32, u32) {
    match note {
        Note::Graph(_) => (u32::MAX, u32::MAX),
        Note::Step(operator, event) => (*operator, event.tx),
    }
}

#[test]
fn what_a_watch_is_told_stays_in_order(rt: HostRuntime) -> Result<(), Fail> {
    let alloc = rt.alloc();
    let mut watch = MemWatch::new(alloc);
    watch.step(5, &last_event(alloc, 1));
    watch.step(3, &last_event(alloc, 2));
    let told = match watch.notes() {
        Some(notes) => match notes.as_slice() {
            [first, second] => (step_of(first), step_of(second)),
            _ => ((0, 0), (0, 0)),
        },
        None => ((0, 0), (0, 0)),
    };
    drop(watch);
    assert_eq!(rt; told, ((5, 1), (3, 2)), "operators and transactions");
    Ok(())
}
