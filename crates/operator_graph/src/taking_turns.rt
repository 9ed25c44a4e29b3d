//! One turn of a batch in flight.

ghost use Rattle.std.specs.Prelude.{◌≡◌, ◌<◌, ◌+◌, ◌*◌, ◌^◌, ◌∷◌, ◌++◌, [], List, true, false, Some, length, take, drop, slice_get, IfOk, OnOk};
ghost use Rattle.sf_value.specs.declared.value.Ref.{Ref};
ghost use Rattle.block_runs.specs.EventStep.{lasts, target_of};
ghost use Rattle.block_step.specs.CompiledViews.{IsWhole};
ghost use Rattle.transaction_steps.specs.Transactions.{Transaction, is_done};
ghost use Rattle.operator_graph.specs.declared.flight.Flight.{Flight};
ghost use Rattle.operator_graph.specs.Partitions.{IsParts};
ghost use Rattle.operator_graph.specs.Telling.{AlsoTold};
ghost use Rattle.operator_graph.specs.BatchEvents as spec;
ghost use Rattle.operator_graph.specs.BatchEvents.{event_told};
ghost use Rattle.operator_graph.specs.Going.{going, places_going, weights};
ghost use Rattle.operator_graph.specs.Stepping.{CanStep, HasGoneOnAt};
ghost use Rattle.operator_graph.specs.Flights.{EachTransaction, FlightsFit, turns_of};
ghost use Rattle.operator_graph.specs.Turns.{Turns};

use crate::flight::{Dataflow, Flights, go_on, is_over};
use crate::going::{Places, place_at};
use crate::routing::operator_of;
use crate::watch::Watch;
use block_code::Event;
use event_step::target;
use keyed_state::Works;
use sf_outside::Chooser;
use std::alloc::AllocError;

/// The operator that is to handle an event.
fn operator_for(event: &Event, parts: u32) -> u32
    requires parts { IsParts parts }
    requires room { (at : Ref) → target_of event.now.kind (lasts event.now.frames) ≡ Some at → (at.class + 1) * parts < 2 ^ 32 }
    ensures { result ≡ spec.operator_for (target_of event.now.kind (lasts event.now.frames)) parts }
{
    match target(event) {
        Some(at) => operator_of(at, parts),
        None => 0,
    }
}

fn tell<W: Watch>(watch: &mut W, parts: u32, event: &Event)
    requires parts { IsParts parts }
    requires room { (at : Ref) → target_of event.now.kind (lasts event.now.frames) ≡ Some at → (at.class + 1) * parts < 2 ^ 32 }
    ensures { AlsoTold (W.told watch.old) (W.told watch.new) (event_told parts event.now ∷ []) }
{
    watch.step(operator_for(event, parts), event);
}

/// The transaction at a place handles its next event, which is told before.
fn turn_at<W: Watch>(
    on: &Dataflow<'_>,
    flights: &mut Flights,
    works: &mut Works,
    place: usize,
    watch: &mut W,
) -> Result<(), AllocError>
    requires whole { IsWhole on.now.compiled.now }
    requires parts { IsParts on.now.parts }
    requires works { place < length works.old }
    requires can { (f : Flight) × (slice_get flights.old place ≡ Some f) × CanStep on.now.compiled.now on.now.state.now.contents f }
    ensures told { (f : Flight) → slice_get flights.old place ≡ Some f →
        AlsoTold (W.told watch.old) (W.told watch.new) (event_told on.now.parts f.next ∷ []) }
    ensures many { length flights.new ≡ length flights.old }
    ensures gone { OnOk result (HasGoneOnAt on.now.compiled.now on.now.state.now.contents place flights.old flights.new works.old works.new) }
{
    let flight = flights.at_mut(place);
    tell(watch, on.parts, &flight.next);
    go_on(on, flight, works.at_mut(place))
}

/// Takes the place of this number out where the transaction there is over.
fn leave(places: &mut Places, number: u32, flights: &Flights, place: usize)
    requires number { number < length places.old }
    requires place { place < length flights.now }
    ensures over { (f : Flight) → slice_get flights.now place ≡ Some f → is_done f.next.kind ≡ true →
        places.new ≡ take number places.old ++ drop (number + 1) places.old }
    ensures going { (f : Flight) → slice_get flights.now place ≡ Some f → is_done f.next.kind ≡ false → places.new ≡ places.old }
{
    if is_over(&flights.as_slice()[place].next) {
        places.remove(number as usize);
    }
}

/// One of the transactions that aren't over is picked, and handles its next event. It answers false
/// where all are over, and then it picks none. The places are those of the ones that aren't over.
pub(crate) fn take_turn<C: Chooser, W: Watch>(
    on: &Dataflow<'_>,
    flights: &mut Flights,
    places: &mut Places,
    works: &mut Works,
    chooser: &mut C,
    watch: &mut W,
) -> Result<bool, AllocError>
    requires whole { IsWhole on.now.compiled.now }
    requires parts { IsParts on.now.parts }
    requires few { length flights.old < 2 ^ 32 }
    requires fit { FlightsFit on.now.compiled.now on.now.state.now.contents flights.old works.old }
    requires placed { places.old ≡ places_going 0 flights.old }
    ensures many { length flights.new ≡ length flights.old }
    ensures still { OnOk result (FlightsFit on.now.compiled.now on.now.state.now.contents flights.new works.new) }
    ensures placed { OnOk result (places.new ≡ places_going 0 flights.new) }
    ensures turns { (ts : List Transaction) → EachTransaction on.now.state.now.contents ts flights.old works.old →
        Turns (turns_of on.now.compiled.now on.now.parts) ts on.now.state.now.contents result flights.new works.new
        (record { choices = C.choices chooser.old; told = W.told watch.old })
        (record { choices = C.choices chooser.new; told = W.told watch.new }) }
    ensures falls { IfOk result (λ more. more ≡ true → weights flights.new < weights flights.old) }
    ensures over { IfOk result (λ more. more ≡ false → going flights.new ≡ 0) }
{
    let count = places.len() as u32;
    if count == 0 {
        return Ok(false);
    }
    let pick = chooser.pick(count);
    let number = pick % count;
    let place = place_at(places, number);
    turn_at(on, flights, works, place, watch)?;
    leave(places, number, flights, place);
    Ok(true)
}
