//! Batches as short texts: what each work reads, `>` and what it writes, a letter for an entity, with
//! `;` between the works.

use keyed_state::{Work, Works};
use sf_list::Sequence;
use sf_value::{Held, Record, Ref, Text, Value};
use std::alloc::{AllocError, Global};

/// The entity of class 0 that has this letter as its key.
pub fn entity(alloc: Global, letter: char) -> Result<Ref, AllocError> {
    let mut key = String::new(alloc);
    key.push(letter)?;
    Ok(Ref {
        class: 0,
        key: Text::of(alloc, key.as_str())?,
    })
}

/// A record of one field, a number.
pub fn record(alloc: Global, number: u32) -> Result<Record, AllocError> {
    let mut fields = Sequence::new(alloc);
    fields.push(alloc, Value::Int(i128::from(number)))?;
    Ok(Record { fields })
}

/// The work holds its own record of an entity.
fn hold(alloc: Global, work: &mut Work, letter: char, number: u32) -> Result<(), AllocError> {
    let held = Held {
        at: entity(alloc, letter)?,
        fields: record(alloc, number)?,
    };
    work.held.push(alloc, held)
}

/// The work reads entities, and holds a record of this number for each.
fn read_all(alloc: Global, work: &mut Work, letters: &str, number: u32) -> Result<(), AllocError> {
    for letter in letters.chars() {
        work.reads.push(alloc, entity(alloc, letter)?)?;
        hold(alloc, work, letter, number)?;
    }
    Ok(())
}

/// The work writes entities, and holds a record of this number for each.
fn write_all(alloc: Global, work: &mut Work, letters: &str, number: u32) -> Result<(), AllocError> {
    for letter in letters.chars() {
        work.writes.push(alloc, entity(alloc, letter)?)?;
        hold(alloc, work, letter, number)?;
    }
    Ok(())
}

/// A work whose records are this number.
fn work_of(alloc: Global, text: &str, number: u32) -> Result<Work, AllocError> {
    let (reads, writes) = text.split_once('>').unwrap_or((text, ""));
    let mut work = Work::new(alloc);
    read_all(alloc, &mut work, reads, number)?;
    write_all(alloc, &mut work, writes, number)?;
    Ok(work)
}

/// The works of a batch, whose records are their numbers from 1.
pub fn works_of(alloc: Global, text: &str) -> Result<Works, AllocError> {
    let mut works = Sequence::new(alloc);
    let mut number: u32 = 0;
    for part in text.split(';') {
        number = number.saturating_add(1);
        works.push(alloc, work_of(alloc, part, number)?)?;
    }
    Ok(works)
}
