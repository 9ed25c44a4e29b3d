//! The entries of the table in their order: lent by place, and copied.

ghost use Rattle.std.specs.Prelude.{◌≡◌, ◌<◌, true, map, length, get_or, IfOk};
ghost use Rattle.keyed_state.specs.Works.{entities_differ};
ghost use Rattle.keyed_state.specs.Listing.{held_of};

use indexmap::IndexMap;
use sf_list::{Sequence, TryClone};
use sf_value::{Held, Record, Records, Ref};
use std::alloc::{AllocError, Global};
use std::marker::Model;

/// Each entity with its record, lent by its place. Contracts see the list of all.
#[derive(Drop)]
pub struct Lent<'a> {
    records: &'a IndexMap<Ref, Record>,
}

impl<'a> Model for Lent<'a> {
    ghost use Rattle.std.specs.Prelude.{List, map};
    ghost use Rattle.sf_value.specs.declared.Held.{Held};
    ghost use Rattle.keyed_state.specs.Listing.{held_of, listed_code};

    ghost Value = { List Held };

    ghost coded = { listed_code };

    ghost view = { λ lent. map held_of lent.records.now.entries };
}

impl<'a> Lent<'a> {
    pub(crate) fn of(records: &'a IndexMap<Ref, Record>) -> Lent<'a>
        ensures all { result ≡ map held_of records.now.entries }
        ensures once { entities_differ result ≡ true }
    {
        let _count = records.len();
        Lent { records }
    }

    /// How many entities there are.
    pub fn len(&self) -> usize
        ensures { result ≡ length self.now }
    {
        self.records.len()
    }

    /// The entity at a place, counted from 0, and its record.
    pub fn at(&self, place: usize) -> (&Ref, &Record)
        requires { place < length self.now }
        ensures { held_of (result.0.now, result.1.now) ≡ get_or self.now place (held_of (result.0.now, result.1.now)) }
    {
        self.records.get_index(place).unwrap()
    }
}

pub(crate) fn copies_of(
    alloc: Global,
    records: &IndexMap<Ref, Record>,
) -> Result<Records, AllocError>
    ensures copies { IfOk result (λ all. all ≡ map held_of records.now.entries) }
    ensures once { IfOk result (λ all. entities_differ all ≡ true) }
{
    let mut all = Sequence::new(alloc);
    for i in 0..records.len() {
        let (at, record) = records.get_index(i).unwrap();
        all.push(alloc, copy_of(alloc, at, record)?)?;
    }
    Ok(all)
}

fn copy_of(alloc: Global, at: &Ref, fields: &Record) -> Result<Held, AllocError>
    ensures { IfOk result (λ held. held ≡ held_of (at.now, fields.now)) }
{
    Ok(Held {
        at: at.try_clone(alloc)?,
        fields: fields.try_clone(alloc)?,
    })
}
