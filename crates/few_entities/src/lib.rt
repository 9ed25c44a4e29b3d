//! What is kept by entity while a request runs: of few entities in a list, of many in a table.
//!
//! Most requests touch one or two entities, which a list finds sooner than a table and with less memory. The
//! entities that come behind the first sixteen are found by hash, so a request that touches many costs no more for each of them.
#![tactic(auto)]

ghost use Rattle.std.specs.Prelude.{◌≡◌, ◌<◌, ◌++◌, [], None, IfOk, OnOk, OnErr, IfSome, IfNone, is_some, position, length, slice_get};
ghost use Rattle.std.specs.Option.{option_copied};
ghost use Rattle.std.specs.List.{IsDistinct};
ghost use Rattle.std.specs.Map.{lookup};
ghost use Rattle.indexmap.specs.IndexMap.{insert_entry, values, index_map_len};
ghost use Rattle.few_entities.specs.Entries.{refs_of, is_ref};

use indexmap::IndexMap;
use sf_value::Ref;
use std::alloc::{AllocError, Global};
use std::marker::Model;
use std::mem;

/// So many entities stand in the list.
const FEW: usize = 16;

/// A value for each of some entities, in the order in which they came. Contracts see the entries as a list.
#[derive(Drop)]
pub struct ByEntity<V> {
    few: Vec<(Ref, V)>,
    more: IndexMap<Ref, V>,
}

impl<V> Model for ByEntity<V> {
    ghost use Rattle.std.specs.Prelude.{List, ◌++◌};
    ghost use Rattle.std.specs.List.{IsDistinct};
    ghost use Rattle.std.specs.Coded.{coded_list, coded×};
    ghost use Rattle.sf_value.specs.declared.value.Ref.{Ref as TheRef};
    ghost use Rattle.few_entities.specs.Entries.{refs_of, is_ref, ref_code};

    ghost Value = { List (TheRef × V) };

    ghost coded = { coded_list (coded× ref_code V.code) };

    ghost view = { λ kept. kept.few.items ++ kept.more.entries };

    ghost invariant = { λ kept. IsDistinct is_ref (refs_of (kept.few.items ++ kept.more.entries)) };
}

/// The place of an entity in a list.
fn place_among<V>(list: &[(Ref, V)], at: &Ref) -> Option<usize>
    ensures place { result ≡ position (λ e. is_ref at.now e.0) list.now }
    ensures within { IfSome result (λ i. i < length list.now) }
{
    list.iter().position(|entry| *at == entry.0)
}

/// The place of an entity in the table. Where nothing is there, it isn't hashed.
fn place_behind<V>(more: &IndexMap<Ref, V>, at: &Ref) -> Option<usize>
    ensures index { result ≡ position (is_ref at.now) (refs_of more.now.entries) }
    ensures found { is_some result ≡ is_some (lookup (is_ref at.now) more.now.entries) }
    ensures value { IfSome result (λ i. slice_get (values more.now) i ≡ lookup (is_ref at.now) more.now.entries) }
    ensures within { IfSome result (λ i. i < index_map_len more.now) }
{
    if more.is_empty() {
        return None;
    }
    more.get_index_of(at)
}

/// Gives its value to an entity that isn't in the list.
fn put_more<V: Drop>(
    few: &mut Vec<(Ref, V)>,
    more: &mut IndexMap<Ref, V>,
    at: Ref,
    value: V,
) -> Result<(), AllocError>
    requires absent { None ≡ position (λ e. is_ref at e.0) few.old.items }
    ensures ok { OnOk result (few.new.items ++ more.new.entries ≡ insert_entry is_ref (few.old.items ++ more.old.entries) at value) }
    ensures err { OnErr result (few.new.items ++ more.new.entries ≡ few.old.items ++ more.old.entries) }
{
    if more.is_empty() && few.len() < FEW {
        few.push((at, value))?;
        return Ok(());
    }
    more.insert(at, value)?;
    Ok(())
}

impl<V: Drop> ByEntity<V> {
    /// Nothing is kept. It takes no memory.
    pub fn new(alloc: Global) -> ByEntity<V>
        ensures { result ≡ [] }
    {
        ByEntity {
            few: Vec::new(alloc),
            more: IndexMap::new(alloc),
        }
    }

    /// The value of an entity, where it has one.
    pub fn get(&self, at: &Ref) -> Option<&V>
        ensures { option_copied result ≡ lookup (is_ref at.now) self.now }
    {
        match place_among(self.few.as_slice(), at) {
            Some(i) => Some(&self.few[i].1),
            None => {
                let i = place_behind(&self.more, at)?;
                Some(&self.more[i])
            }
        }
    }

    /// Puts a value in place of the one that an entity has, and gives that one. An entity that has none gets none.
    pub fn replace(&mut self, at: &Ref, value: V) -> Option<V>
        ensures value { result ≡ lookup (is_ref at.now) self.old }
        ensures entries { IfSome result (λ _. self.new ≡ insert_entry is_ref self.old at.now value) }
        ensures unchanged { IfNone result (self.new ≡ self.old) }
    {
        match place_among(self.few.as_slice(), at) {
            Some(i) => Some(mem::replace(&mut self.few[i].1, value)),
            None => {
                let i = place_behind(&self.more, at)?;
                Some(mem::replace(&mut self.more[i], value))
            }
        }
    }

    /// Gives an entity its value, in place of the one that it had. A new entity comes last. Want of memory changes nothing.
    pub fn put(&mut self, at: Ref, value: V) -> Result<(), AllocError>
        ensures ok { OnOk result (self.new ≡ insert_entry is_ref self.old at value) }
        ensures err { OnErr result (self.new ≡ self.old) }
    {
        match place_among(self.few.as_slice(), &at) {
            Some(i) => {
                self.few[i].1 = value;
                Ok(())
            }
            None => put_more(&mut self.few, &mut self.more, at, value),
        }
    }

    /// The entries as a list. No entity stands there twice.
    pub fn into_list(self) -> Result<Vec<(Ref, V)>, AllocError>
        ensures entries { IfOk result (λ list. list.items ≡ self) }
        ensures distinct { IsDistinct is_ref (refs_of self) }
    {
        let ByEntity { few, more } = self;
        let mut list = few;
        for entry in more {
            list.push(entry)?;
        }
        Ok(list)
    }
}
