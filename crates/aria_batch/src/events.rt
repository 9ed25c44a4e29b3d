//! The events of a batch, to their end.

ghost use Rattle.std.specs.Prelude.{◌≡◌, ◌<◌, ◌^◌, length, IfOk};
ghost use Rattle.std.specs.List.{AllByRecursion};
ghost use Rattle.program_meaning.specs.Fits.{StateFits, ActFits};
ghost use Rattle.commit_order.specs.CommittedSerial.{AreWorksOf};
ghost use Rattle.block_step.specs.CompiledViews.{compiled_tables, IsWhole};
ghost use Rattle.batch_events.specs.Vocabulary.{acts_of, no_works, IsParts, Outside};
ghost use Rattle.aria_batch.specs.BatchRun.{source_of, own_outcomes, batch_of, IsToldAlong};
ghost use Rattle.aria_batch.specs.Counts.{counted_in_run};

use batch_events::{InFlight, Watch};
use block_step::Compiled;
use keyed_state::{Keyed, Work, Works};
use sf_list::Sequence;
use sf_outside::Chooser;
use sf_value::{Outcomes, Requests};
use std::alloc::{AllocError, Global};

/// What the events of a batch have come to.
#[derive(Drop)]
pub(crate) struct Ended {
    pub(crate) outcomes: Outcomes,
    pub(crate) works: Works,
    pub(crate) events: u64,
}

/// Runs the events of a batch, in turns as the chooser picks them, until none is in flight.
pub(crate) fn run_events<C: Chooser, W: Watch>(
    alloc: Global,
    compiled: &Compiled,
    state: &Keyed,
    requests: &Requests,
    parts: u32,
    chooser: &mut C,
    watch: &mut W,
) -> Result<Ended, AllocError>
    requires whole { IsWhole compiled.now }
    requires parts { IsParts parts }
    requires few { length requests.now < 2 ^ 32 }
    requires state { StateFits (compiled_tables compiled.now) state.now.contents }
    requires fit { AllByRecursion (ActFits (compiled_tables compiled.now)) (acts_of requests.now) }
    ensures told { IsToldAlong (batch_of compiled.now state.now.contents requests.now) parts (counted_in_run result)
        (record { choices = C.choices chooser.old; told = W.told watch.old }) (record { choices = C.choices chooser.new; told = W.told watch.new }) }
    ensures outcomes { IfOk result (λ e. e.outcomes ≡ own_outcomes (source_of compiled.now) state.now.contents (acts_of requests.now)) }
    ensures works { IfOk result (λ e. AreWorksOf (source_of compiled.now) state.now.contents (acts_of requests.now) e.works) }
{
    let mut in_flight = InFlight::start(alloc, compiled, requests)?;
    let mut works = empty_works(alloc, requests.len())?;
    let mut events: u64 = 0;
    while in_flight.turn(alloc, compiled, parts, state, &mut works, chooser, watch)? {
        events += 1;
    }
    Ok(Ended {
        outcomes: in_flight.outcomes(),
        works,
        events,
    })
}

/// So many works that have done nothing.
fn empty_works(alloc: Global, count: usize) -> Result<Works, AllocError>
    ensures { IfOk result (λ works. works ≡ no_works count) }
{
    let mut works = Sequence::new(alloc);
    for _ in 0..count {
        works.push(alloc, Work::new(alloc))?;
    }
    Ok(works)
}
