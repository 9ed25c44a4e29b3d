//! Which requests of a batch are committed, and which are carried.

use crate::works::{entity, works_of};
use keyed_state::Works;
use reservations::{CommitRule, Rule1, Table};
use std::alloc::{AllocError, Global};
use std::test::Fail;
use test_support::hold_table;

/// A batch has at most this many requests.
const MOST: usize = 256;

const BATCHES: &str = "
    touches nothing           |                     | [0] []
    two that read             | x>;x>               | [0, 1] []
    read, then written        | x>;x>x              | [0, 1] []
    written, then read        | x>x;x>              | [0] [1]
    written twice             | x>x;x>x             | [0] [1]
    written twice, not read   | >x;>x               | [0] [1]
    two entities              | x>x;y>y             | [0, 1] []
    reads what is written     | x>x;xy>y            | [0] [1]
    behind one that is carried | x>x;xy>y;y>        | [0] [1, 2]
    past one that is carried  | x>x;x>x;y>y         | [0, 2] [1]
    many read, one writes     | x>;x>;x>x;x>        | [0, 1, 2] [3]
    each behind its own       | x>x;y>y;x>;y>;z>z   | [0, 1, 4] [2, 3]
    second of several writes  | x>xy;y>y            | [0] [1]
    created, and found missing | i>i;u>u;i>         | [0, 1] [2]
    three sales of one item   | i>i;ui>ui;ui>ui     | [0] [1, 2]
";

/// The places that a rule commits, and those that it carries.
pub(crate) fn chosen<R: CommitRule>(
    alloc: Global,
    rule: &R,
    works: &Works,
) -> Result<String, AllocError> {
    if works.len() > MOST {
        return String::from_str(alloc, "too many");
    }
    let choice = rule.choose(alloc, works)?;
    format!(in alloc;
        "{:?} {:?}",
        choice.committed.as_slice(),
        choice.carried.as_slice()
    )
}

/// The same of a batch that is a text.
fn told(alloc: Global, batch: &str) -> Result<String, Fail> {
    let works = works_of(alloc, batch)?;
    let told = chosen(alloc, &Rule1, &works);
    drop(works);
    Ok(told?)
}

#[test]
fn earlier_writers_stand_in_the_way(rt: HostRuntime) -> Result<(), Fail> {
    hold_table(rt.alloc(), BATCHES, 15, told)
}

/// Places that are reserved for one entity, one after another, a digit each.
const RESERVED: &str = "
    none          |      | None
    one           | 7    | Some(7)
    falling       | 73   | Some(3)
    rising        | 37   | Some(3)
    the first     | 040  | Some(0)
";

/// The least of some places.
fn least_of(alloc: Global, digits: &str) -> Result<String, Fail> {
    let at = entity(alloc, 'x')?;
    let mut table = Table::new(alloc);
    for digit in digits.trim().chars() {
        table.reserve(alloc, digit.to_digit(10).unwrap_or(0), &at)?;
    }
    Ok(format!(in alloc; "{:?}", table.least(&at))?)
}

#[test]
fn the_least_place_is_kept(rt: HostRuntime) -> Result<(), Fail> {
    hold_table(rt.alloc(), RESERVED, 5, least_of)
}
