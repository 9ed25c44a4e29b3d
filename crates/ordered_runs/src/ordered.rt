//! What requests come to in their order.

ghost use Rattle.std.specs.Prelude.{◌<◌, ◌^◌, length, IfOk};
ghost use Rattle.std.specs.List.{AllByRecursion};
ghost use Rattle.program_meaning.specs.Fits.{StateFits, ActFits};
ghost use Rattle.block_step.specs.CompiledViews.{compiled_tables, IsWhole};
ghost use Rattle.aria_batch.specs.Vocabulary.{acts_of};
ghost use Rattle.aria_batch.specs.BatchRun.{source_of};
ghost use Rattle.ordered_runs.specs.InOrder.{IsInOrder};

use crate::one_by_one::run_one_by_one;
use crate::together::{run_together, takes_all};
use aria_batch::BatchResult;
use block_step::Compiled;
use keyed_state::{Keyed, Works};
use sf_value::{Outcomes, Places, Requests};
use std::alloc::{AllocError, Global};

/// What requests have come to one after another.
#[derive(Drop)]
pub struct Ordered {
    pub outcomes: Outcomes,
    /// What each has read and written.
    pub works: Works,
    /// The places of the works, rising: they are to be applied to the state in this order.
    pub places: Places,
}

/// Runs requests one after another, each on the state left by those before it. The state stays as it is;
/// the works, applied to it, make it the one after them.
pub fn run_in_order(
    alloc: Global,
    compiled: &Compiled,
    state: &Keyed,
    requests: &Requests,
) -> Result<Ordered, AllocError>
    requires whole { IsWhole compiled.now }
    requires few { length requests.now < 2 ^ 32 }
    requires state { StateFits (compiled_tables compiled.now) state.now.contents }
    requires fit { AllByRecursion (ActFits (compiled_tables compiled.now)) (acts_of requests.now) }
    ensures { IfOk result (IsInOrder (source_of compiled.now) state.now.contents (acts_of requests.now)) }
{
    let BatchResult {
        committed,
        carried,
        outcomes,
        works,
        events: _events,
    } = run_together(alloc, compiled, state, requests)?;
    drop(carried);
    if takes_all(&committed, requests.len()) {
        return Ok(Ordered {
            outcomes,
            works,
            places: committed,
        });
    }
    drop(committed);
    drop(outcomes);
    drop(works);
    run_one_by_one(alloc, compiled, state, requests)
}
