//! The records that code begins with.

ghost use Rattle.std.specs.Prelude.{◌≡◌};
ghost use Rattle.std.specs.FinMap as finite;
ghost use Rattle.std.specs.Option.{option_copied};
ghost use Rattle.sf_value.specs.Keys.{key_of};
ghost use Rattle.program_meaning.specs.Serial.{no_state};

use crate::local::Local;
use sf_value::{Ref, Values};
use std::marker::Model;

/// Whose records code begins with.
#[derive(Clone, Copy, Drop)]
pub(crate) enum Holders<'a> {
    /// All entities of a state.
    All(&'a Local),
    /// One entity alone, with its record.
    One(&'a Ref, &'a Values),
}

/// The records that code begins with, where they stand. Contracts see a state.
#[derive(Drop)]
pub(crate) struct Records<'a> {
    holders: Holders<'a>,
}

impl<'a> Model for Records<'a> {
    ghost use Rattle.program_meaning.specs.World.{State};
    ghost use Rattle.source_meaning.specs.StateView.{state_code};
    ghost use Rattle.source_meaning.specs.Holders.{state_held};

    ghost Value = { State };

    ghost coded = { state_code };

    ghost view = { λ records. state_held records.holders };
}

impl<'a> Records<'a> {
    /// Those of all entities of a state.
    pub(crate) fn all(state: &'a Local) -> Records<'a>
        ensures { result ≡ state.now }
    {
        Records {
            holders: Holders::All(state),
        }
    }

    /// That of one entity, as if there were no other.
    pub(crate) fn own(me: &'a Ref, fields: &'a Values) -> Records<'a>
        ensures { result ≡ finite.insert no_state (key_of me.now) fields.now }
    {
        Records {
            holders: Holders::One(me, fields),
        }
    }

    /// The record of an entity, where there is one.
    pub(crate) fn get(&self, at: &Ref) -> Option<&'a Values>
        ensures { option_copied result ≡ finite.get self.now (key_of at.now) }
    {
        match self.holders {
            Holders::All(state) => state.get(at),
            Holders::One(me, fields) => own_record(me, fields, at),
        }
    }
}

/// The record of an entity where there is this one alone.
fn own_record<'a>(me: &'a Ref, fields: &'a Values, at: &Ref) -> Option<&'a Values>
    ensures { option_copied result ≡ finite.get (finite.insert no_state (key_of me.now) fields.now) (key_of at.now) }
{
    if me.same(at) { Some(fields) } else { None }
}
