//! A batch that has run, with all that its commit moves.

use crate::moves::Moves;
use sf_value::{BatchRecord, Replies};
use std::alloc::AllocError;

/// A batch that has run and isn't committed yet.
#[derive(Drop)]
pub struct Planned {
    /// The requests that came since the last batch, and the places that this one commits in the list of
    /// those that wait, counted from 0.
    pub batch: BatchRecord,
    /// The replies to the committed requests, in their order.
    pub replies: Replies,
    /// How many events were handled.
    pub events: u64,
    pub(crate) moves: Moves,
}

/// Why a batch isn't planned.
#[derive(Clone, Copy, PartialEq, Eq, Debug)]
pub enum PlanFault {
    /// The history has no place for as many entries as requests wait.
    HistoryFull { history: u32, pending: u32 },
    NoMemory,
}

impl From<AllocError> for PlanFault {
    ghost use Rattle.std.specs.Prelude.{◌≡◌};
    ghost use Rattle.engine.specs.declared.planned.PlanFault.TheVariants.{NoMemory};

    ghost from_gives = { λ _ fault. fault ≡ NoMemory };

    fn from(_error: AllocError) -> PlanFault {
        PlanFault::NoMemory
    }
}
