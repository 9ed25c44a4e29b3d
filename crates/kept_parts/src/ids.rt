//! Whether the ids of a history and of requests that wait differ.

ghost use Rattle.std.specs.Prelude.{◌≡◌, ◌↔◌, ◌<◌, ◌^◌, ◌++◌, IsTrue, bytes_eq, length, map};
ghost use Rattle.std.specs.List.{list_any, IsDistinct};
ghost use Rattle.kept_parts.specs.Ids.{entry_ids, request_ids};

use request_history::History;
use sf_value::{Request, Text};

/// Whether the ids of these requests differ from those of the history, and from each other.
pub fn ids_differ(history: &History, requests: &[Request]) -> bool
    requires places { length history.now.entries < 2 ^ 32 }
    requires committed { IsDistinct bytes_eq (entry_ids history.now.entries) }
    ensures { IsTrue result ↔ IsDistinct bytes_eq (entry_ids history.now.entries ++ request_ids requests.now) }
{
    for (i, request) in requests.iter().enumerate() {
        if is_taken(history, &requests[..i], &request.id) {
            return false;
        }
    }
    true
}

/// Whether the history or one of these requests has the id.
fn is_taken(history: &History, requests: &[Request], id: &Text) -> bool
    requires { length history.now.entries < 2 ^ 32 }
    ensures { result ≡ list_any (bytes_eq id.now) (entry_ids history.now.entries ++ request_ids requests.now) }
{
    history.find(id).is_some() || is_among(requests, id)
}

fn is_among(requests: &[Request], id: &Text) -> bool
    ensures { result ≡ list_any (bytes_eq id.now) (request_ids requests.now) }
{
    for request in requests {
        if id.same(&request.id) {
            return true;
        }
    }
    false
}
