//! Which flights go on: a batch keeps their places, so that a turn looks at no other flight.

ghost use Rattle.std.specs.Prelude.{◌≡◌, ◌<◌, ◌^◌, length, slice_get, Some, IfOk};
ghost use Rattle.operator_graph.specs.Going.{places_going};

use crate::flight::{Flight, is_over};
use sf_list::Sequence;
use std::alloc::{AllocError, Global};

/// The places of the flights that go on, in their order.
pub(crate) type Places = Sequence<u32>;

/// The places of those of these flights that go on.
pub(crate) fn places_of(alloc: Global, flights: &[Flight]) -> Result<Places, AllocError>
    requires { length flights.now < 2 ^ 32 }
    ensures { IfOk result (λ places. places ≡ places_going 0 flights.now) }
{
    let mut places = Sequence::new(alloc);
    for (place, flight) in flights.iter().enumerate() {
        if !is_over(&flight.next) {
            places.push(alloc, place as u32)?;
        }
    }
    Ok(places)
}

/// The place of this number.
pub(crate) fn place_at(places: &Places, number: u32) -> usize
    requires { number < length places.now }
    ensures { slice_get places.now number ≡ Some result }
{
    let Some(place) = places.get(number as usize) else {
        // there are more than that
        unreachable!()
    };
    *place as usize
}
