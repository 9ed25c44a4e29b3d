//! Requests run one by one, on a copy of the state that takes the writes of each.

ghost use Rattle.std.specs.Prelude.{◌≡◌, ◌<◌, ◌^◌, length, IfOk, OnOk};
ghost use Rattle.std.specs.List.{AllByRecursion};
ghost use Rattle.program_meaning.specs.Fits.{StateFits, ActFits};
ghost use Rattle.program_meaning.specs.RequestRun.{run};
ghost use Rattle.block_step.specs.CompiledViews.{compiled_tables, IsWhole};
ghost use Rattle.aria_batch.specs.Vocabulary.{acts_of};
ghost use Rattle.aria_batch.specs.BatchRun.{source_of};
ghost use Rattle.ordered_runs.specs.InOrder.{IsInOrder, HasJoined};

use crate::copying::{copy_of_state, copy_of_works};
use crate::ordered::Ordered;
use crate::together::run_together;
use aria_batch::BatchResult;
use block_step::Compiled;
use keyed_state::Keyed;
use sf_list::{Sequence, TryClone};
use sf_value::{Request, Requests};
use std::alloc::{AllocError, Global};

pub(crate) fn run_one_by_one(
    alloc: Global,
    compiled: &Compiled,
    state: &Keyed,
    requests: &Requests,
) -> Result<Ordered, AllocError>
    requires whole { IsWhole compiled.now }
    requires few { length requests.now < 2 ^ 32 }
    requires state { StateFits (compiled_tables compiled.now) state.now.contents }
    requires fit { AllByRecursion (ActFits (compiled_tables compiled.now)) (acts_of requests.now) }
    ensures { IfOk result (IsInOrder (source_of compiled.now) state.now.contents (acts_of requests.now)) }
{
    let mut left = copy_of_state(alloc, state)?;
    let mut ordered = Ordered {
        outcomes: Sequence::new(alloc),
        works: Sequence::new(alloc),
        places: Sequence::new(alloc),
    };
    for request in requests.as_slice() {
        run_next(alloc, compiled, &mut left, request, &mut ordered)?;
    }
    drop(left);
    Ok(ordered)
}

/// Runs a request on the state and makes its writes there. What it came to joins the others.
fn run_next(
    alloc: Global,
    compiled: &Compiled,
    state: &mut Keyed,
    request: &Request,
    ordered: &mut Ordered,
) -> Result<(), AllocError>
    requires whole { IsWhole compiled.now }
    requires few { length ordered.old.works < 2 ^ 32 }
    requires state { StateFits (compiled_tables compiled.now) state.old.contents }
    requires fit { ActFits (compiled_tables compiled.now) request.now.act }
    ensures state { OnOk result (state.new.contents ≡ (run (source_of compiled.now) state.old.contents request.now.act).state) }
    ensures joined { OnOk result (HasJoined (source_of compiled.now) state.old.contents request.now.act ordered.old ordered.new) }
{
    let mut alone = Sequence::new(alloc);
    alone.push(alloc, request.try_clone(alloc)?)?;
    let BatchResult {
        committed,
        carried,
        outcomes,
        works,
        events: _events,
    } = run_together(alloc, compiled, state, &alone)?;
    drop(carried);
    let copies = copy_of_works(alloc, &works)?;
    state.prepare(alloc, &copies, &committed)?;
    state.apply(copies, &committed);
    let place = ordered.works.len() as u32;
    ordered.outcomes.append(alloc, outcomes)?;
    ordered.works.append(alloc, works)?;
    ordered.places.push(alloc, place)
}
