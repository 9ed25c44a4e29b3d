//! The buffers of a transaction: what it has done with each entity.

ghost use Rattle.std.specs.Prelude.{◌≡◌, true, IfOk, OnOk, option_map};
ghost use Rattle.std.specs.Option.{option_copied};
ghost use Rattle.std.specs.FinMap as finite;
ghost use Rattle.std.specs.FinSet as set;
ghost use Rattle.sf_value.specs.Keys.{Key, key_of};
ghost use Rattle.keyed_state.specs.Works.{keys_of, held_record};
ghost use Rattle.transaction_buffers.specs.Buffered.{no_buffers, seen, noted};
ghost use Rattle.transaction_buffers.specs.Touches.{with_event, next_touched};

use crate::handing_over::{reads_of, work_of};
use few_entities::ByEntity;
use keyed_state::{Keyed, Work};
use sf_value::{Record, Ref};
use std::alloc::{AllocError, Global};
use std::marker::Model;

/// What a transaction has done with one entity.
#[derive(Drop)]
pub(crate) struct Touched {
    /// Its own record of the entity, where an event has left one.
    pub(crate) own: Option<Record>,
    pub(crate) wrote: bool,
}

/// What one transaction has done so far. Contracts see its own records, and the entities that it has
/// read and written.
#[derive(Drop)]
pub struct Buffers {
    entities: ByEntity<Touched>,
}

impl Model for Buffers {
    ghost use Rattle.transaction_buffers.specs.Buffered.{Buffered, buffered_code};

    ghost Value = { Buffered };

    ghost coded = { buffered_code };

    ghost use Rattle.transaction_buffers.specs.Touches.{buffered_in};

    ghost view = { λ buffers. buffered_in buffers.entities };
}

impl Touched {
    /// Notes one more event: the record that it left, if it left one, and whether it wrote it.
    fn add(&mut self, held: Option<Record>, wrote: bool)
        ensures { self.new ≡ with_event self.old held wrote }
    {
        if held.is_some() {
            self.own = held;
        }
        self.wrote = self.wrote || wrote;
    }
}

/// What a transaction has done with an entity, once one more event is noted.
fn touched_again(before: Option<Touched>, held: Option<Record>, wrote: bool) -> Touched
    ensures { result ≡ next_touched before held wrote }
{
    match before {
        Some(mut touched) => {
            touched.add(held, wrote);
            touched
        }
        None => Touched { own: held, wrote },
    }
}

impl Buffers {
    /// The buffers of a transaction that has done nothing yet. It takes no memory.
    pub fn new(alloc: Global) -> Buffers
        ensures { result ≡ no_buffers }
    {
        Buffers {
            entities: ByEntity::new(alloc),
        }
    }

    /// The record of an entity as the transaction sees it: its own, or else the snapshot's. It takes no
    /// memory.
    pub fn record<'a>(&'a self, state: &'a Keyed, at: &Ref) -> Option<&'a Record>
        ensures { option_map (λ r. r.fields) (option_copied result) ≡ seen state.now.contents self.now (key_of at.now) }
    {
        match self.own(at) {
            Some(record) => Some(record),
            None => state.get(at),
        }
    }

    /// Its own record of an entity, where it has one.
    fn own<'a>(&'a self, at: &Ref) -> Option<&'a Record>
        ensures { option_map (λ r. r.fields) (option_copied result) ≡ finite.get self.now.own (key_of at.now) }
    {
        self.entities.get(at)?.own.as_ref()
    }

    /// Notes that an event of an entity was handled: the record that it left, if it left one, and whether
    /// it wrote it. The entries keep their own allocator, so `alloc` is unused.
    pub fn note(
        &mut self,
        _alloc: Global,
        at: Ref,
        held: Option<Record>,
        wrote: bool,
    ) -> Result<(), AllocError>
        ensures { OnOk result (self.new ≡ noted self.old (key_of at) (option_map (λ r. r.fields) held) wrote) }
    {
        let blank = Touched {
            own: None,
            wrote: false,
        };
        let before = self.entities.replace(&at, blank);
        self.entities.put(at, touched_again(before, held, wrote))
    }

    /// What the transaction has read and written, and its records of what it wrote. The entities stand
    /// in the order in which it touched them first.
    pub fn into_work(self, alloc: Global) -> Result<Work, AllocError>
        ensures reads { IfOk result (λ w. keys_of w.reads ≡ self.reads) }
        ensures writes { IfOk result (λ w. keys_of w.writes ≡ self.writes) }
        ensures held { IfOk result (λ w. (q : Key) → set.contains self.writes q ≡ true → held_record w.held q ≡ finite.get self.own q) }
    {
        work_of(alloc, self.entities.into_list()?)
    }

    /// The same of a transaction that failed: it has read what it has read, and written nothing.
    pub fn into_reads(self, alloc: Global) -> Result<Work, AllocError>
        ensures reads { IfOk result (λ w. keys_of w.reads ≡ self.reads) }
        ensures writes { IfOk result (λ w. keys_of w.writes ≡ set.empty) }
    {
        reads_of(alloc, self.entities.into_list()?)
    }
}
