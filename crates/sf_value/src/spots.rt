//! What of entities is read and written, part by part.

ghost use Rattle.std.specs.Prelude.{◌≡◌, ◌↔◌, IfOk, IsTrue};

use crate::value::Ref;
use sf_list::{Sequence, TryClone};
use std::alloc::{AllocError, Global};

/// A part of an entity that a request can read or write.
#[derive(PartialEq, Eq, Hash, Drop)]
pub struct Spot {
    pub at: Ref,
    /// 0 for whether the entity exists, and 1 more than a field's place for that field.
    pub part: u32,
}

pub type Spots = Sequence<Spot>;

impl Spot {
    /// Whether two spots are one: the same entity and the same part. It takes no memory.
    pub fn same(&self, other: &Spot) -> bool
        ensures { IsTrue result ↔ (self.now ≡ other.now) }
    {
        self.part == other.part && self.at.same(&other.at)
    }
}

impl TryClone for Spot {
    ghost is_copy = { λ old made. made ≡ old };

    fn try_clone(&self, alloc: Global) -> Result<Spot, AllocError> {
        Ok(Spot {
            at: self.at.try_clone(alloc)?,
            part: self.part,
        })
    }
}
