//! How a request that arrives is looked up: among the committed ones by hash, and among those that wait
//! one by one.

ghost use Rattle.std.specs.Prelude.{◌≡◌, ◌<◌, ◌^◌, ◌↔◌, length, None, IsTrue, if◌then◌else◌};
ghost use Rattle.request_history.specs.Repeats.{same_act, kept_of};
ghost use Rattle.engine.specs.declared.arrival.Arrival.TheVariants as arrival;
ghost use Rattle.engine.specs.Arrivals.{waiting_with, meets};

use crate::arrival::Arrival;
use request_history::History;
use sf_value::{Act, Request, Text};

/// What a request meets.
pub(crate) fn arrival_at(history: &History, pending: &[Request], request: &Request) -> Arrival
    requires { length history.now.entries < 2 ^ 32 }
    ensures { result ≡ meets (kept_of history.now.entries request.now.id) (waiting_with pending.now request.now.id) request.now.act }
{
    match history.find(&request.id) {
        Some(found) => by_content(&found.committed.act, request, Arrival::Again(found.seq)),
        None => among_waiting(pending, request),
    }
}

/// What a request meets whose id isn't committed. At most 256 requests wait.
fn among_waiting(pending: &[Request], request: &Request) -> Arrival
    ensures { result ≡ meets None (waiting_with pending.now request.now.id) request.now.act }
{
    for waiting in pending {
        if has_id(waiting, &request.id) {
            return by_content(&waiting.act, request, Arrival::Waiting);
        }
    }
    Arrival::New
}

/// Whether a request that waits has this id.
fn has_id(waiting: &Request, id: &Text) -> bool
    ensures { IsTrue result ↔ (id.now ≡ waiting.now.id) }
{
    may_be_same(id, &waiting.id) && id.same(&waiting.id)
}

/// Whether two ids may be equal, by their lengths and last bytes alone. Most ids that wait are passed over by this.
fn may_be_same(id: &Text, other: &Text) -> bool
    ensures { id.now ≡ other.now → IsTrue result }
{
    let (id, other) = (id.as_str().as_bytes(), other.as_str().as_bytes());
    id.len() == other.len() && id.last() == other.last()
}

/// What a request meets that has the id of another: this, where it asks for the same.
fn by_content(other: &Act, request: &Request, same: Arrival) -> Arrival
    ensures { result ≡ (if same_act other.now request.now.act then same else arrival.Reused) }
{
    if other.same(&request.act) {
        same
    } else {
        Arrival::Reused
    }
}
