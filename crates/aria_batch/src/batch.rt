//! A batch, from its requests to what is committed of it.

ghost use Rattle.std.specs.Prelude.{◌≡◌, ◌<◌, ◌^◌, length, IfOk};
ghost use Rattle.std.specs.List.{AllByRecursion};
ghost use Rattle.program_meaning.specs.Fits.{StateFits, ActFits};
ghost use Rattle.reservations.specs.Accesses.{accesses_of};
ghost use Rattle.commit_order.specs.CommittedSerial.{AreWorksOf, IsSerial};
ghost use Rattle.block_step.specs.CompiledViews.{compiled_tables, IsWhole};
ghost use Rattle.batch_events.specs.Vocabulary.{acts_of, IsParts, Outside};
ghost use Rattle.aria_batch.specs.BatchRun.{source_of, own_outcomes, batch_of, IsToldAlong};
ghost use Rattle.aria_batch.specs.Counts.{counted_in_batch};

use crate::events::run_events;
use batch_events::Watch;
use block_step::Compiled;
use keyed_state::{Keyed, Works};
use reservations::CommitRule;
use sf_outside::Chooser;
use sf_value::{Outcomes, Places, Requests};
use std::alloc::{AllocError, Global};

/// What a batch comes to. Places count its requests from 0.
#[derive(Drop)]
pub struct BatchResult {
    /// The places that are committed, in the order in which they are.
    pub committed: Places,
    /// The others, rising. They come first in the next batch.
    pub carried: Places,
    /// What each request came to on the snapshot, by its place.
    pub outcomes: Outcomes,
    /// What each has read and written there, by its place.
    pub works: Works,
    /// How many events were handled.
    pub events: u64,
}

/// Runs each request on the snapshot, and chooses by the rule which of them are committed. The snapshot
/// stays as it is.
///
/// It is an error where memory runs out; the chooser and the watch have been asked and told then of a
/// beginning of the batch.
pub fn run_batch<R: CommitRule, C: Chooser, W: Watch>(
    alloc: Global,
    compiled: &Compiled,
    state: &Keyed,
    requests: &Requests,
    parts: u32,
    rule: &R,
    chooser: &mut C,
    watch: &mut W,
) -> Result<BatchResult, AllocError>
    requires whole { IsWhole compiled.now }
    requires parts { IsParts parts }
    requires few { length requests.now < 2 ^ 32 }
    requires state { StateFits (compiled_tables compiled.now) state.now.contents }
    requires fit { AllByRecursion (ActFits (compiled_tables compiled.now)) (acts_of requests.now) }
    ensures told { IsToldAlong (batch_of compiled.now state.now.contents requests.now) parts (counted_in_batch result)
        (record { choices = C.choices chooser.old; told = W.told watch.old }) (record { choices = C.choices chooser.new; told = W.told watch.new }) }
    ensures outcomes { IfOk result (λ b. b.outcomes ≡ own_outcomes (source_of compiled.now) state.now.contents (acts_of requests.now)) }
    ensures works { IfOk result (λ b. AreWorksOf (source_of compiled.now) state.now.contents (acts_of requests.now) b.works) }
    ensures committed { IfOk result (λ b. b.committed ≡ (R.choice rule.now (accesses_of b.works)).committed) }
    ensures carried { IfOk result (λ b. b.carried ≡ (R.choice rule.now (accesses_of b.works)).carried) }
    ensures serial { IfOk result (λ b. IsSerial (source_of compiled.now) state.now.contents (acts_of requests.now) b.works b.committed) }
{
    let ended = run_events(alloc, compiled, state, requests, parts, chooser, watch)?;
    let choice = rule.choose(alloc, &ended.works)?;
    Ok(BatchResult {
        committed: choice.committed,
        carried: choice.carried,
        outcomes: ended.outcomes,
        works: ended.works,
        events: ended.events,
    })
}
