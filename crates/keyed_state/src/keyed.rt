//! The state of a run: the record of each entity that there is.

ghost use Rattle.std.specs.Prelude.{◌≡◌, ◌↔◌, ◌≤◌, None, true, length, IsTrue, IfOk, OnOk, OnErr};
ghost use Rattle.std.specs.FinMap as finite;
ghost use Rattle.std.specs.Option.{option_copied, option_map};
ghost use Rattle.sf_value.specs.Keys.{key_of};
ghost use Rattle.keyed_state.specs.Works.{with_records, after_writes, written_count, are_places, entities_differ};

use crate::Works;
use crate::commit::{put_all, room_of};
use crate::listing::{Lent, copies_of};
use indexmap::IndexMap;
use sf_value::{Places, Record, Records, Ref};
use std::alloc::{AllocError, Global};
use std::marker::Model;

/// The record of each entity that there is. Contracts see its contents, and how many entities can
/// join them without memory.
#[derive(Drop)]
pub struct Keyed {
    records: IndexMap<Ref, Record>,
}

impl Model for Keyed {
    ghost use Rattle.indexmap.specs.IndexMap.{spare};
    ghost use Rattle.keyed_state.specs.Contents.{Stored, stored_code, contents_of};

    ghost Value = { Stored };

    ghost coded = { stored_code };

    ghost view = { λ keyed. record { contents = contents_of keyed.records.entries; spare = spare keyed.records } };
}

impl Keyed {
    /// The state without an entity. It takes no memory.
    pub fn new(alloc: Global) -> Keyed
        ensures { result.contents ≡ finite.empty }
    {
        Keyed {
            records: IndexMap::new(alloc),
        }
    }

    /// The record of an entity, where there is one.
    pub fn get(&self, at: &Ref) -> Option<&Record>
        ensures { option_map (λ r. r.fields) (option_copied result) ≡ finite.get self.now.contents (key_of at.now) }
    {
        self.records.get(at)
    }

    /// Gives an entity its record, in place of the one that it had. The table keeps its own
    /// allocator, so `alloc` is unused.
    pub fn put(&mut self, _alloc: Global, at: Ref, held: Record) -> Result<(), AllocError>
        ensures ok { OnOk result (self.new.contents ≡ finite.insert self.old.contents (key_of at) held.fields) }
        ensures err { OnErr result (self.new.contents ≡ self.old.contents) }
    {
        self.put_new(at, held)?;
        Ok(())
    }

    /// As `put`, with the same look-up: tells whether the entity had no record.
    pub fn put_new(&mut self, at: Ref, held: Record) -> Result<bool, AllocError>
        ensures new { IfOk result (λ is_new. IsTrue is_new ↔ (finite.get self.old.contents (key_of at) ≡ None)) }
        ensures ok { OnOk result (self.new.contents ≡ finite.insert self.old.contents (key_of at) held.fields) }
        ensures err { OnErr result (self.new.contents ≡ self.old.contents) }
    {
        let before = self.records.insert(at, held)?;
        Ok(before.is_none())
    }

    /// Makes room for so many entities more.
    pub fn reserve(&mut self, count: usize) -> Result<(), AllocError>
        ensures contents { self.new.contents ≡ self.old.contents }
        ensures kept { self.old.spare ≤ self.new.spare }
        ensures room { OnOk result (count ≤ self.new.spare) }
    {
        self.records.reserve(count)
    }

    /// Each entity with its record, once, lent in the order in which the state first held them. It takes no memory.
    pub fn lend(&self) -> Lent<'_>
        ensures contents { with_records finite.empty result ≡ self.now.contents }
        ensures once { entities_differ result ≡ true }
    {
        Lent::of(&self.records)
    }

    /// Each entity with its record, once, in the order in which the state first held them.
    pub fn records(&self, alloc: Global) -> Result<Records, AllocError>
        ensures contents { IfOk result (λ all. with_records finite.empty all ≡ self.now.contents) }
        ensures once { IfOk result (λ all. entities_differ all ≡ true) }
    {
        copies_of(alloc, &self.records)
    }

    /// Makes room for all that the works at these places write, so that `apply` needs no memory. The
    /// table keeps its own allocator, so `alloc` is unused.
    pub fn prepare(
        &mut self,
        _alloc: Global,
        works: &Works,
        committed: &Places,
    ) -> Result<(), AllocError>
        requires { are_places (length works.now) committed.now ≡ true }
        ensures contents { self.new.contents ≡ self.old.contents }
        ensures kept { self.old.spare ≤ self.new.spare }
        ensures room { OnOk result (written_count works.now committed.now ≤ self.new.spare) }
    {
        let room = room_of(works.as_slice(), committed.as_slice())?;
        self.records.reserve(room)
    }

    /// Makes the writes of the works at these places, one work after another. It takes no memory and
    /// can't fail.
    pub fn apply(&mut self, works: Works, committed: &Places)
        requires places { are_places (length works) committed.now ≡ true }
        requires room { written_count works committed.now ≤ self.old.spare }
        ensures { self.new.contents ≡ after_writes self.old.contents works committed.now }
    {
        put_all(&mut self.records, works, committed.as_slice());
    }
}
