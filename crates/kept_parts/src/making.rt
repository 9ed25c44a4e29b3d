//! The history of entries, and the state of records.

ghost use Rattle.std.specs.Prelude.{◌<◌, ◌^◌, length, IfOk};
ghost use Rattle.kept_parts.specs.Made.{IsHistoryOf, IsStateOf};

use keyed_state::Keyed;
use request_history::History;
use sf_value::{Entries, Records};
use std::alloc::{AllocError, Global};

/// The history of these entries, or none where an id stands twice. The entries are moved, into room that is made for all of them.
pub fn history_of(alloc: Global, entries: Entries) -> Result<Option<History>, AllocError>
    requires { length entries < 2 ^ 32 }
    ensures { IfOk result (IsHistoryOf entries) }
{
    let mut history = History::new(alloc);
    history.reserve(entries.len())?;
    for entry in entries {
        if !history.commit_new(entry.request, entry.outcome)? {
            return Ok(None);
        }
    }
    Ok(Some(history))
}

/// The state of these records, which it holds in their order, or none where an entity stands twice. The records are moved, into
/// room that is made for all of them.
pub fn state_of(alloc: Global, records: Records) -> Result<Option<Keyed>, AllocError>
    ensures { IfOk result (IsStateOf records) }
{
    let mut state = Keyed::new(alloc);
    state.reserve(records.len())?;
    for held in records {
        if !state.put_new(held.at, held.fields)? {
            return Ok(None);
        }
    }
    Ok(Some(state))
}
