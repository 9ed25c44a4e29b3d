//! A batch in flight: of its transactions one at a time is picked, and handles its next event.

ghost use Rattle.std.specs.Prelude.{◌≡◌, ◌<◌, ◌^◌, length, IfOk};
ghost use Rattle.operator_graph.specs.Going.{places_going};

use crate::first_flights::first_flights;
use crate::flight::{Dataflow, Flights};
use crate::going::{Places, places_of};
use crate::landing::{blank_outcomes, take_outcomes};
use crate::taking_turns::take_turn;
use crate::watch::Watch;
use block_step::Compiled;
use keyed_state::{Keyed, Works};
use sf_outside::Chooser;
use sf_value::{Outcomes, Requests};
use std::alloc::{AllocError, Global};

/// The transactions of a batch, one for each request, by number: the next event of each, and what it
/// buffers over the snapshot of the batch.
#[derive(Drop)]
pub struct InFlight {
    pub(crate) flights: Flights,
    /// The places of those that aren't over.
    pub(crate) places: Places,
    /// One for each transaction, so that its outcome finds room where there is no memory.
    pub(crate) outcomes: Outcomes,
    ghost as_many: { length outcomes ≡ length flights },
    ghost few: { length flights < 2 ^ 32 },
}

impl InFlight {
    ghost use Rattle.std.specs.Prelude.{◌≡◌, ◌<◌, ◌≤◌, ◌^◌, ◌*◌, List, true, false, length, map, IfOk, OnOk};
    ghost use Rattle.std.specs.List.{AllByRecursion};
    ghost use Rattle.quiet_methods.specs.MarksKeepWithin.{source};
    ghost use Rattle.program_meaning.specs.World.{State};
    ghost use Rattle.program_meaning.specs.Fits.{StateFits, ActFits};
    ghost use Rattle.block_step.specs.CompiledViews.{compiled_program, compiled_names, compiled_tables, IsWhole};
    ghost use Rattle.transaction_steps.specs.Transactions.{Transaction, firsts};
    ghost use Rattle.transaction_steps.specs.GoingOn.{most_weight};
    ghost use Rattle.operator_graph.specs.FirstFlights.{acts_of};
    ghost use Rattle.operator_graph.specs.Partitions.{IsParts};
    ghost use Rattle.operator_graph.specs.Flights.{no_works, turns_of};
    ghost use Rattle.operator_graph.specs.BatchInFlight.{flights_in, AreTransactions, IsUnderWay, count_in_flight, weight_in_flight, outcomes_in};
    ghost use Rattle.operator_graph.specs.Turns.{Turns};

    /// One transaction for each request. A request that weighs too much is over at once.
    pub fn start(
        alloc: Global,
        compiled: &Compiled,
        requests: &Requests,
    ) -> Result<InFlight, AllocError>
        requires whole { IsWhole compiled.now }
        requires few { length requests.now < 2 ^ 32 }
        requires fit { AllByRecursion (ActFits (compiled_tables compiled.now)) (acts_of requests.now) }
        ensures first { IfOk result (λ f. (snapshot : State) → AreTransactions snapshot
            (firsts (source (compiled_names compiled.now) (compiled_program compiled.now)) snapshot (acts_of requests.now))
            f (no_works (length requests.now))) }
        ensures under_way { IfOk result (λ f. (snapshot : State) → StateFits (compiled_tables compiled.now) snapshot →
            IsUnderWay compiled.now snapshot f (no_works (length requests.now))) }
        ensures light { IfOk result (λ f. weight_in_flight f ≤ length requests.now * most_weight) }
    {
        let outcomes = blank_outcomes(alloc, requests.len())?;
        match first_flights(alloc, compiled.program(), requests.as_slice()) {
            Ok(flights) => begun(alloc, flights, outcomes),
            Err(error) => {
                drop(outcomes);
                Err(error)
            }
        }
    }

    /// Picks one of the transactions that aren't over, tells the watch of its next event and of the operator
    /// of this, handles the event, and makes the work of the transaction where nothing is left to do. It
    /// answers false where all are over, and then it picks none.
    ///
    /// It needs what `start` was given, the works as the turn before left them, and a state of the same
    /// contents at each turn. Where memory runs out the batch is to be given up.
    pub fn turn<C: Chooser, W: Watch>(
        &mut self,
        alloc: Global,
        compiled: &Compiled,
        parts: u32,
        state: &Keyed,
        works: &mut Works,
        chooser: &mut C,
        watch: &mut W,
    ) -> Result<bool, AllocError>
        requires whole { IsWhole compiled.now }
        requires parts { IsParts parts }
        requires under_way { IsUnderWay compiled.now state.now.contents self.old works.old }
        ensures still { OnOk result (IsUnderWay compiled.now state.now.contents self.new works.new) }
        ensures turns { (ts : List Transaction) → AreTransactions state.now.contents ts self.old works.old →
            Turns (turns_of compiled.now parts) ts state.now.contents result (flights_in self.new) works.new
            (record { choices = C.choices chooser.old; told = W.told watch.old })
            (record { choices = C.choices chooser.new; told = W.told watch.new }) }
        ensures falls { IfOk result (λ more. more ≡ true → weight_in_flight self.new < weight_in_flight self.old) }
        ensures over { IfOk result (λ more. more ≡ false → count_in_flight self.new ≡ 0) }
    {
        let on = Dataflow {
            alloc,
            compiled,
            state,
            parts,
        };
        take_turn(
            &on,
            &mut self.flights,
            &mut self.places,
            works,
            chooser,
            watch,
        )
    }

    /// What the requests have come to, in their order. It takes no memory.
    pub fn outcomes(self) -> Outcomes
        requires { count_in_flight self ≡ 0 }
        ensures { result ≡ outcomes_in self }
    {
        let InFlight {
            flights,
            places,
            outcomes,
        } = self;
        drop(places);
        take_outcomes(flights, outcomes)
    }
}

/// The batch of these flights.
fn begun(alloc: Global, flights: Flights, outcomes: Outcomes) -> Result<InFlight, AllocError>
    requires as_many { length outcomes ≡ length flights }
    requires few { length flights < 2 ^ 32 }
    ensures { IfOk result (λ f. (f.flights ≡ flights) × (f.places ≡ places_going 0 flights)) }
{
    match places_of(alloc, flights.as_slice()) {
        Ok(places) => Ok(InFlight {
            flights,
            places,
            outcomes,
        }),
        Err(error) => {
            drop(flights);
            drop(outcomes);
            Err(error)
        }
    }
}
