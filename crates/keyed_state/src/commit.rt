//! The writes of a batch go into the table, in room that was made before.

ghost use Rattle.std.specs.Prelude.{◌≡◌, ◌+◌, ◌<◌, ◌≤◌, [], ◌∷◌, true, length, filter, IfOk};
ghost use Rattle.indexmap.specs.IndexMap.{spare};
ghost use Rattle.keyed_state.specs.Contents.{contents_of};
ghost use Rattle.keyed_state.specs.Works.{with_records, is_written, written_records, after_writes, written_count, are_places};

use crate::{Work, Works};
use indexmap::IndexMap;
use sf_value::{Held, Record, Ref};
use std::alloc::AllocError;

/// How many records the works at these places write. Where the sum is no `usize`, there is no memory
/// for so many.
pub(crate) fn room_of(works: &[Work], committed: &[u32]) -> Result<usize, AllocError>
    requires { are_places (length works.now) committed.now ≡ true }
    ensures { IfOk result (λ room. room ≡ written_count works.now committed.now) }
{
    let mut room: usize = 0;
    for &place in committed {
        room = room
            .checked_add(writes_of(&works[place as usize]))
            .ok_or(AllocError)?;
    }
    Ok(room)
}

/// How many records a work writes.
fn writes_of(work: &Work) -> usize
    ensures { result ≡ length (written_records work.now) }
{
    let mut count: usize = 0;
    for held in work.held.as_slice() {
        if was_written(held, work.writes.as_slice(), count) {
            count += 1;
        }
    }
    count
}

/// Whether a record's entity was written. It is looked for at a place first: a work that holds just
/// what it wrote, in the same order, has it there.
fn was_written(held: &Held, writes: &[Ref], place: usize) -> bool
    ensures { result ≡ is_written writes.now held.now }
{
    match writes.get(place) {
        Some(at) if *at == held.at => true,
        _ => writes.contains(&held.at),
    }
}

pub(crate) fn put_all(records: &mut IndexMap<Ref, Record>, works: Works, committed: &[u32])
    requires places { are_places (length works) committed.now ≡ true }
    requires room { written_count works committed.now ≤ spare records.old }
    ensures { contents_of records.new.entries ≡ after_writes (contents_of records.old.entries) works committed.now }
{
    let mut works = works;
    for &place in committed {
        put_written(records, works.at_mut(place as usize));
    }
    drop(works);
}

/// Puts the records that a work wrote into the table, from the last one on, so that the first of an
/// entity counts.
fn put_written(records: &mut IndexMap<Ref, Record>, work: &mut Work)
    requires { length (written_records work.old) ≤ spare records.old }
    ensures contents { contents_of records.new.entries ≡ with_records (contents_of records.old.entries) (written_records work.old) }
    ensures room { spare records.old ≤ spare records.new + length (written_records work.old) }
{
    while !work.held.is_empty() {
        let last = work.held.remove(work.held.len() - 1);
        put_if_written(records, work.writes.as_slice(), work.held.len(), last);
    }
}

fn put_if_written(records: &mut IndexMap<Ref, Record>, writes: &[Ref], place: usize, held: Held)
    requires { length (filter (is_written writes.now) (held ∷ [])) ≤ spare records.old }
    ensures contents { contents_of records.new.entries ≡ with_records (contents_of records.old.entries) (filter (is_written writes.now) (held ∷ [])) }
    ensures room { spare records.old ≤ spare records.new + length (filter (is_written writes.now) (held ∷ [])) }
{
    if was_written(&held, writes, place) {
        records.insert(held.at, held.fields).unwrap();
    } else {
        drop(held);
    }
}
