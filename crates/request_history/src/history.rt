//! The requests that were committed, by their ids, in the order in which they were.

ghost use Rattle.std.specs.Prelude.{◌≡◌, ◌↔◌, ◌+◌, ◌≤◌, ◌<◌, ◌^◌, ◌++◌, ◌∷◌, [], None, true, length, IsTrue, IfOk, OnOk, OnErr};
ghost use Rattle.std.specs.Option.{option_map};
ghost use Rattle.program_meaning.specs.Serial.{ids_differ};
ghost use Rattle.request_history.specs.Repeats.{kept_of, kept_in};

use indexmap::IndexMap;
use sf_value::{Act, Entries, Outcome, Request, Text};
use std::alloc::{AllocError, Global};
use std::marker::Model;

/// What is kept of a committed request beside its id.
#[derive(Drop)]
pub struct Committed {
    pub act: Act,
    pub outcome: Outcome,
}

/// An entry of the history, with its place from 1.
#[derive(Clone, Copy)]
pub struct Found<'a> {
    pub seq: u32,
    pub id: &'a Text,
    pub committed: &'a Committed,
}

/// The history of an engine or of a session. Contracts see its entries in order, and how many can join
/// them without memory.
#[derive(Drop)]
pub struct History {
    table: IndexMap<Text, Committed>,
}

impl Model for History {
    ghost use Rattle.indexmap.specs.IndexMap.{spare};
    ghost use Rattle.request_history.specs.HistoryView.{Stored, stored_code, entries_of};

    ghost Value = { Stored };

    ghost coded = { stored_code };

    ghost view = { λ history. record { entries = entries_of history.table.entries; spare = spare history.table } };
}

impl History {
    ghost use Rattle.request_history.specs.HistoryView.{kept_at};

    /// The history without an entry. It takes no memory.
    pub fn new(alloc: Global) -> History
        ensures { result.entries ≡ [] }
    {
        History {
            table: IndexMap::new(alloc),
        }
    }

    /// How many requests were committed.
    pub fn len(&self) -> usize
        ensures { result ≡ length self.now.entries }
    {
        self.table.len()
    }

    /// The entry with this id, where a request with it was committed.
    pub fn find(&self, id: &Text) -> Option<Found<'_>>
        requires { length self.now.entries < 2 ^ 32 }
        ensures { option_map kept_at result ≡ kept_of self.now.entries id.now }
    {
        let (at, id, committed) = self.table.get_full(id)?;
        Some(Found {
            seq: (at + 1) as u32,
            id,
            committed,
        })
    }

    /// The entry at a place counted from 1, where there is one.
    pub fn entry(&self, place: u32) -> Option<Found<'_>>
        ensures { option_map kept_at result ≡ kept_in self.now.entries place }
    {
        if place == 0 {
            return None;
        }
        let (id, committed) = self.table.get_index((place - 1) as usize)?;
        Some(Found {
            seq: place,
            id,
            committed,
        })
    }

    /// Commits a request whose id is new. Without memory nothing changes.
    pub fn commit(&mut self, request: Request, outcome: Outcome) -> Result<(), AllocError>
        requires { kept_of self.old.entries request.id ≡ None }
        ensures ok { OnOk result (self.new.entries ≡ self.old.entries ++ record { request = request; outcome = outcome } ∷ []) }
        ensures err { OnErr result (self.new.entries ≡ self.old.entries) }
    {
        let Request { id, act } = request;
        self.table.insert(id, Committed { act, outcome })?;
        Ok(())
    }

    /// Commits a request where its id is new, and tells whether it is, with one look-up. Where it isn't, the history is of no
    /// use any more: what it had of the id is gone. Without memory nothing changes.
    pub fn commit_new(&mut self, request: Request, outcome: Outcome) -> Result<bool, AllocError>
        ensures new { IfOk result (λ is_new. IsTrue is_new ↔ (kept_of self.old.entries request.id ≡ None)) }
        ensures committed { IfOk result (λ is_new. IsTrue is_new → self.new.entries ≡ self.old.entries ++ record { request = request; outcome = outcome } ∷ []) }
        ensures err { OnErr result (self.new.entries ≡ self.old.entries) }
    {
        let Request { id, act } = request;
        let before = self.table.insert(id, Committed { act, outcome })?;
        Ok(before.is_none())
    }

    /// Makes room for so many entries more.
    pub fn reserve(&mut self, count: usize) -> Result<(), AllocError>
        ensures entries { self.new.entries ≡ self.old.entries }
        ensures kept { self.old.spare ≤ self.new.spare }
        ensures room { OnOk result (count ≤ self.new.spare) }
    {
        self.table.reserve(count)
    }

    /// Commits these requests in their order, all with new ids. It takes no memory and can't fail.
    pub fn commit_all(&mut self, entries: Entries)
        requires ids { ids_differ (self.old.entries ++ entries) ≡ true }
        requires room { length entries ≤ self.old.spare }
        ensures { self.new.entries ≡ self.old.entries ++ entries }
    {
        for entry in entries {
            self.commit_in_room(entry.request, entry.outcome);
        }
    }

    /// Commits a request whose id is new, where there is room for it.
    fn commit_in_room(&mut self, request: Request, outcome: Outcome)
        requires id { kept_of self.old.entries request.id ≡ None }
        requires room { 0 < self.old.spare }
        ensures entries { self.new.entries ≡ self.old.entries ++ record { request = request; outcome = outcome } ∷ [] }
        ensures room { self.old.spare ≤ self.new.spare + 1 }
    {
        let Request { id, act } = request;
        self.table.insert(id, Committed { act, outcome }).unwrap();
    }
}
