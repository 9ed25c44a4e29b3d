//! Requests run together, each by itself on the state.

ghost use Rattle.std.specs.Prelude.{◌≡◌, ◌↔◌, ◌<◌, ◌^◌, IsTrue, length, IfOk};
ghost use Rattle.std.specs.List.{AllByRecursion, range_with_len};
ghost use Rattle.program_meaning.specs.Fits.{StateFits, ActFits};
ghost use Rattle.block_step.specs.CompiledViews.{compiled_tables, IsWhole};
ghost use Rattle.aria_batch.specs.Vocabulary.{acts_of};
ghost use Rattle.aria_batch.specs.BatchRun.{source_of};
ghost use Rattle.ordered_runs.specs.InOrder.{IsTogether};

use aria_batch::{BatchResult, NoWatch, run_batch};
use block_step::Compiled;
use keyed_state::Keyed;
use reservations::Rule1;
use sf_outside::ListChooser;
use sf_value::{Places, Requests};
use std::alloc::{AllocError, Global};

/// Runs requests together in one partition. Nobody watches, and the first event is always next.
pub(crate) fn run_together(
    alloc: Global,
    compiled: &Compiled,
    state: &Keyed,
    requests: &Requests,
) -> Result<BatchResult, AllocError>
    requires whole { IsWhole compiled.now }
    requires few { length requests.now < 2 ^ 32 }
    requires state { StateFits (compiled_tables compiled.now) state.now.contents }
    requires fit { AllByRecursion (ActFits (compiled_tables compiled.now)) (acts_of requests.now) }
    ensures { IfOk result (IsTogether (source_of compiled.now) state.now.contents (acts_of requests.now)) }
{
    let mut chooser = ListChooser::new(alloc, &[])?;
    let mut watch = NoWatch;
    run_batch(
        alloc,
        compiled,
        state,
        requests,
        1,
        &Rule1,
        &mut chooser,
        &mut watch,
    )
}

/// Whether these are all the places of a list of so many, rising.
pub(crate) fn takes_all(places: &Places, count: usize) -> bool
    ensures { IsTrue result ↔ (places.now ≡ range_with_len 0 count) }
{
    if places.len() != count {
        return false;
    }
    for (i, place) in places.as_slice().iter().enumerate() {
        if *place as usize != i {
            return false;
        }
    }
    true
}
