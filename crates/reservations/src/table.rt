//! Reservations: the least place that was reserved for each entity.

ghost use Rattle.std.specs.Prelude.{◌≡◌, OnOk, OnErr};
ghost use Rattle.std.specs.FinMap as finite;
ghost use Rattle.sf_value.specs.Keys.{key_of};
ghost use Rattle.reservations.specs.Reservations.{least_with, keeps};

use indexmap::IndexMap;
use sf_list::TryClone;
use sf_value::Ref;
use std::alloc::{AllocError, Global};
use std::marker::Model;

/// The least place that was reserved for each entity. Contracts see it as a finite map.
#[derive(Drop)]
pub struct Table {
    places: IndexMap<Ref, u32>,
}

impl Model for Table {
    ghost use Rattle.reservations.specs.Reservations.{Reserved, reserved_code, reserved_in};

    ghost Value = { Reserved };

    ghost coded = { reserved_code };

    ghost view = { λ table. reserved_in table.places.entries };
}

impl Table {
    /// The table without a reservation. It takes no memory.
    pub fn new(alloc: Global) -> Table
        ensures { result ≡ finite.empty }
    {
        Table {
            places: IndexMap::new(alloc),
        }
    }

    /// The least place that was reserved for an entity, if one was.
    pub fn least(&self, at: &Ref) -> Option<u32>
        ensures { result ≡ finite.get self.now (key_of at.now) }
    {
        self.places.get(at).copied()
    }

    /// Reserves a place for an entity. Where a place that is no greater was reserved before, that one
    /// stays, and no memory is taken.
    pub fn reserve(&mut self, alloc: Global, place: u32, at: &Ref) -> Result<(), AllocError>
        ensures ok { OnOk result (self.new ≡ finite.insert self.old (key_of at.now) (least_with (finite.get self.old (key_of at.now)) place)) }
        ensures err { OnErr result (self.new ≡ self.old) }
    {
        if is_kept(self.least(at), place) {
            return Ok(());
        }
        self.places.insert(at.try_clone(alloc)?, place)?;
        Ok(())
    }
}

/// Whether a reservation stays when this place is reserved besides.
fn is_kept(before: Option<u32>, place: u32) -> bool
    ensures { result ≡ keeps before place }
{
    match before {
        Some(kept) => kept <= place,
        None => false,
    }
}
