//! The records of all entities by their keys, and what the transactions of a batch buffer over them.
//!
//! A batch takes its memory before it commits: `Keyed::prepare` makes the room, and then
//! `Keyed::apply` makes the writes with no memory and can't fail.
#![tactic(auto)]

ghost use Rattle.std.specs.Prelude.{◌≡◌};
ghost use Rattle.keyed_state.specs.Works.{no_work};

mod commit;
mod keyed;
mod listing;

pub use keyed::Keyed;
pub use listing::Lent;
use sf_list::Sequence;
use sf_value::{Records, Ref};
use std::alloc::Global;

pub type Refs = Sequence<Ref>;

/// What a transaction has done so far. Nobody else sees it before it is committed.
#[derive(Drop)]
pub struct Work {
    /// Its own records, over those of the snapshot. Where one entity has two, the first counts.
    pub held: Records,
    /// Each entity that it called or created, also where it was found missing.
    pub reads: Refs,
    /// Each entity that it created or assigned a field of.
    pub writes: Refs,
}

/// The works of a batch, by the transactions' places in it.
pub type Works = Sequence<Work>;

impl Work {
    /// A work that has done nothing. It takes no memory.
    pub fn new(alloc: Global) -> Work
        ensures { result ≡ no_work }
    {
        Work {
            held: Sequence::new(alloc),
            reads: Sequence::new(alloc),
            writes: Sequence::new(alloc),
        }
    }
}
