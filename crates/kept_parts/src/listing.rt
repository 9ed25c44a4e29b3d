//! The last entries of a history, listed.

ghost use Rattle.std.specs.Prelude.{◌≡◌, ◌<◌, ◌^◌, ◌++◌, [], length, drop, IfOk, OnOk};
ghost use Rattle.std.specs.List.{cons_option};
ghost use Rattle.std.specs.Option.{option_map};
ghost use Rattle.request_history.specs.HistoryView.{kept_at};

use request_history::{Found, History};
use sf_list::{Sequence, TryClone};
use sf_value::{Entries, Entry, Request};
use std::alloc::{AllocError, Global};

/// Copies of the entries of a history behind the first so many, in their order.
pub fn entries_behind(alloc: Global, history: &History, kept: u32) -> Result<Entries, AllocError>
    requires { length history.now.entries < 2 ^ 32 }
    ensures { IfOk result (λ entries. entries ≡ drop kept history.now.entries) }
{
    let mut entries = Sequence::new(alloc);
    for i in kept as usize..history.len() {
        push_entry(&mut entries, alloc, history.entry(i as u32 + 1))?;
    }
    Ok(entries)
}

fn push_entry(
    entries: &mut Entries,
    alloc: Global,
    found: Option<Found<'_>>,
) -> Result<(), AllocError>
    ensures { OnOk result (entries.new ≡ entries.old ++ cons_option (option_map (λ f. (kept_at f).entry) found.entry) []) }
{
    match found {
        Some(found) => entries.push(alloc, copy_of(alloc, &found)?),
        None => Ok(()),
    }
}

fn copy_of(alloc: Global, found: &Found<'_>) -> Result<Entry, AllocError>
    ensures { IfOk result (λ entry. entry ≡ (kept_at found.now).entry) }
{
    Ok(Entry {
        request: Request {
            id: found.id.try_clone(alloc)?,
            act: found.committed.act.try_clone(alloc)?,
        },
        outcome: found.committed.outcome.try_clone(alloc)?,
    })
}
