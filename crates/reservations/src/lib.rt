//! Which requests of a batch are committed: rules on commits, and the one by reservations.
#![tactic(auto)]

ghost use Rattle.std.specs.Prelude.{◌≡◌, ◌<◌, ◌^◌, ℕ, List, length, IfOk};
ghost use Rattle.serial_order.specs.ConflictFree.{Access};
ghost use Rattle.reservations.specs.Accesses.{accesses_of};
ghost use Rattle.reservations.specs.CommitRules.{Chosen, IsLawful};

mod rule1;
mod table;

use keyed_state::Works;
pub use rule1::{Rule1, commits_by_pairs};
use sf_value::Places;
use std::alloc::{AllocError, Global};
pub use table::Table;

/// What a rule chose of a batch, by places in it.
#[derive(Drop)]
pub struct Choice {
    /// Those that are committed, in the order in which they are.
    pub committed: Places,
    /// The others, rising. They come first in the next batch.
    pub carried: Places,
}

/// A rule that chooses which requests of a batch are committed, and in which order.
pub trait CommitRule {
    /// What it chooses, by what each request reads and writes, as sets, alone.
    ghost choice: { Self → List Access → Chosen };

    /// Chooses from what each transaction of a batch read and wrote on the batch's snapshot.
    fn choose(&self, alloc: Global, works: &Works) -> Result<Choice, AllocError>
        requires { length works.now < 2 ^ 32 }
        ensures committed { IfOk result (λ c. c.committed ≡ (choice self.now (accesses_of works.now)).committed) }
        ensures carried { IfOk result (λ c. c.carried ≡ (choice self.now (accesses_of works.now)).carried) };

    /// Each place is in one of the lists, once; the carried ones rise; the first of a batch is
    /// committed; and no committed one writes what one that is committed later reads or writes.
    ghost lawful: { (rule : Self) (batch : List Access) → length batch < 2 ^ 32 → IsLawful batch (choice rule batch) };
}
