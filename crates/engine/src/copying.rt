//! Copies of requests and outcomes, of which a batch's record, replies and entries are made.

ghost use Rattle.std.specs.Prelude.{◌≡◌, ◌+◌, ◌<◌, ◌^◌, ◌++◌, [], if◌then◌else◌, length, IfOk, OnOk};
ghost use Rattle.std.specs.List.{cons_option};
ghost use Rattle.std.specs.Option.{option_copied};
ghost use Rattle.engine.specs.Batches.{requests_at, other_places, replies_from};
ghost use Rattle.engine.specs.Copying.{paired, entries_at};

use sf_list::{Sequence, TryClone};
use sf_value::{Entries, Entry, Outcome, Outcomes, Replies, Reply, Request, Requests};
use std::alloc::{AllocError, Global};

pub(crate) fn copies_of(alloc: Global, requests: &[Request]) -> Result<Requests, AllocError>
    ensures { IfOk result (λ copies. copies ≡ requests.now) }
{
    let mut copies = Sequence::new(alloc);
    for request in requests {
        copies.push(alloc, request.try_clone(alloc)?)?;
    }
    Ok(copies)
}

/// Copies of the requests at these places, in the order of the places.
pub(crate) fn requests_at(
    alloc: Global,
    requests: &Requests,
    places: &[u32],
) -> Result<Requests, AllocError>
    ensures { IfOk result (λ copies. copies ≡ requests_at requests.now places.now) }
{
    let mut copies = Sequence::new(alloc);
    for &place in places {
        push_copy(&mut copies, alloc, requests.get(place as usize))?;
    }
    Ok(copies)
}

fn push_copy(
    copies: &mut Requests,
    alloc: Global,
    request: Option<&Request>,
) -> Result<(), AllocError>
    ensures { OnOk result (copies.new ≡ copies.old ++ cons_option (option_copied request.entry) []) }
{
    match request {
        Some(request) => copies.push(alloc, request.try_clone(alloc)?),
        None => Ok(()),
    }
}

/// The requests at these places with their outcomes, in the order of the places.
pub(crate) fn entries_at(
    alloc: Global,
    requests: &Requests,
    outcomes: &Outcomes,
    places: &[u32],
) -> Result<Entries, AllocError>
    ensures { IfOk result (λ entries. entries ≡ entries_at requests.now outcomes.now places.now) }
{
    let mut entries = Sequence::new(alloc);
    for &place in places {
        let at = place as usize;
        push_entry(&mut entries, alloc, requests.get(at), outcomes.get(at))?;
    }
    Ok(entries)
}

fn push_entry(
    entries: &mut Entries,
    alloc: Global,
    request: Option<&Request>,
    outcome: Option<&Outcome>,
) -> Result<(), AllocError>
    ensures { OnOk result (entries.new ≡ entries.old ++ cons_option (paired (option_copied request.entry) (option_copied outcome.entry)) []) }
{
    match (request, outcome) {
        (Some(request), Some(outcome)) => entries.push(
            alloc,
            Entry {
                request: request.try_clone(alloc)?,
                outcome: outcome.try_clone(alloc)?,
            },
        ),
        _ => Ok(()),
    }
}

/// The replies to entries that join a history of so many.
pub(crate) fn replies_to(
    alloc: Global,
    before: u32,
    entries: &[Entry],
) -> Result<Replies, AllocError>
    requires { before + length entries.now < 2 ^ 32 }
    ensures { IfOk result (λ replies. replies ≡ replies_from (before + 1) entries.now) }
{
    let mut replies = Sequence::new(alloc);
    let mut seq = before;
    for entry in entries {
        seq += 1;
        let outcome = entry.outcome.try_clone(alloc)?;
        replies.push(alloc, Reply { seq, outcome })?;
    }
    Ok(replies)
}

/// Copies of the requests at all other places than these, in their order.
pub(crate) fn others_of(
    alloc: Global,
    requests: &Requests,
    places: &[u32],
) -> Result<Requests, AllocError>
    requires { length requests.now < 2 ^ 32 }
    ensures { IfOk result (λ copies. copies ≡ requests_at requests.now (other_places (length requests.now) places.now)) }
{
    let mut copies = Sequence::new(alloc);
    for i in 0..requests.len() {
        let skipped = places.contains(&(i as u32));
        push_unless(&mut copies, alloc, skipped, requests.get(i))?;
    }
    Ok(copies)
}

fn push_unless(
    copies: &mut Requests,
    alloc: Global,
    skipped: bool,
    request: Option<&Request>,
) -> Result<(), AllocError>
    ensures { OnOk result (copies.new ≡ (if skipped then copies.old else (copies.old ++ cons_option (option_copied request.entry) []))) }
{
    if skipped {
        Ok(())
    } else {
        push_copy(copies, alloc, request)
    }
}
