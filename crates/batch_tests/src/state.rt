//! What the writes of the committed requests make of the state.

use crate::works::{entity, record, works_of};
use keyed_state::{Keyed, Works};
use reservations::{CommitRule, Rule1};
use sf_value::Held;
use std::alloc::{AllocError, Global};
use std::test::Fail;
use test_support::hold_table;
use value_texts::values_told;

/// A batch has at most this many requests.
const MOST: usize = 256;

/// The entities that there are at first, whose records are 0, and a batch.
const COMMITS: &str = "
    one writes                | xy / x>x            | x=1 y=0
    one is created            | x / y>y             | x=0 y=1
    what is only read stays   | xy / xy>y           | x=0 y=1
    of two works              | xyz / x>x;y>y       | x=1 y=2 z=0
    one is carried            | xy / x>x;xy>y       | x=1 y=0
    the first writer counts   | x / x>x;x>x         | x=1
    in the order of the batch | x / z>z;y>y         | x=0 z=1 y=2
    from nothing              | / x>x;y>y           | x=1 y=2
    nothing is written        | xy / x>;y>          | x=0 y=0
";

/// A state with a record of 0 for each letter.
fn state_of(alloc: Global, letters: &str) -> Result<Keyed, AllocError> {
    let mut state = Keyed::new(alloc);
    for letter in letters.chars() {
        state.put(alloc, entity(alloc, letter)?, record(alloc, 0)?)?;
    }
    Ok(state)
}

/// Commits what a rule chooses of a batch.
fn commit<R: CommitRule>(
    alloc: Global,
    rule: &R,
    state: &mut Keyed,
    works: Works,
) -> Result<(), AllocError> {
    if works.len() > MOST {
        drop(works);
        return Ok(());
    }
    let choice = rule.choose(alloc, &works)?;
    state.prepare(alloc, &works, &choice.committed)?;
    state.apply(works, &choice.committed);
    Ok(())
}

/// Entities with their records, with a blank between two.
fn entities_told(alloc: Global, records: &[Held]) -> Result<String, AllocError> {
    let mut told = String::new(alloc);
    for held in records {
        if !told.is_empty() {
            told.push(' ')?;
        }
        let fields = values_told(alloc, held.fields.fields.as_slice())?;
        let key = held.at.key.as_str();
        told.push_str(format!(in alloc; "{key}={fields}")?.as_str())?;
    }
    Ok(told)
}

/// Each entity with its record, in the order in which they joined the state.
fn state_told(alloc: Global, state: &Keyed) -> Result<String, AllocError> {
    let records = state.records(alloc)?;
    let told = entities_told(alloc, records.as_slice());
    drop(records);
    told
}

/// A state after a batch.
fn committed(alloc: Global, state: &mut Keyed, batch: &str) -> Result<String, AllocError> {
    let works = works_of(alloc, batch)?;
    commit(alloc, &Rule1, state, works)?;
    state_told(alloc, state)
}

/// The state after a batch on the state of some entities.
fn after(alloc: Global, text: &str) -> Result<String, Fail> {
    let (letters, batch) = text.split_once('/').unwrap_or((text, ""));
    let mut state = state_of(alloc, letters.trim())?;
    let told = committed(alloc, &mut state, batch.trim());
    drop(state);
    Ok(told?)
}

#[test]
fn committed_writes_are_made(rt: HostRuntime) -> Result<(), Fail> {
    hold_table(rt.alloc(), COMMITS, 9, after)
}

/// The entities that there are, and one that is looked for.
const FOUND: &str = "
    the first     | xy / x | 0
    the last      | xy / y | 0
    another       | xy / z | none
    in no state   | / x    | none
";

/// The record of an entity in a state.
fn record_told(alloc: Global, state: &Keyed, letter: char) -> Result<String, AllocError> {
    let at = entity(alloc, letter)?;
    match state.get(&at) {
        Some(record) => values_told(alloc, record.fields.as_slice()),
        None => String::from_str(alloc, "none"),
    }
}

/// The record of an entity in the state of some entities.
fn found(alloc: Global, text: &str) -> Result<String, Fail> {
    let (letters, letter) = text.split_once('/').unwrap_or((text, ""));
    let state = state_of(alloc, letters.trim())?;
    let told = record_told(alloc, &state, letter.trim().chars().next().unwrap_or(' '));
    drop(state);
    Ok(told?)
}

#[test]
fn a_record_is_found_by_its_entity(rt: HostRuntime) -> Result<(), Fail> {
    hold_table(rt.alloc(), FOUND, 4, found)
}
