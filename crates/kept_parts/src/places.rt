//! Whether numbers are places of a list.

ghost use Rattle.std.specs.Prelude.{◌≡◌};
ghost use Rattle.keyed_state.specs.Works.{are_places};

/// Whether these are places of a list of so many, none of them twice.
pub fn are_places(count: usize, places: &[u32]) -> bool
    ensures { result ≡ are_places count places.now }
{
    for (i, place) in places.iter().enumerate() {
        if *place as usize >= count || places[i + 1..].contains(place) {
            return false;
        }
    }
    true
}
