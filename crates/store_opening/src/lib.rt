//! Opening a store for a run: it is found again on a mounted disk, and its core is given to an engine. A new store gets its first snapshot.
#![tactic(auto)]

mod finding;
mod old_store;
mod opened_store;
mod opening;
mod replaying;
mod stop;

pub use finding::{FoundStore, find_store};
pub use opened_store::{OpenSettings, OpenedStore};
pub use opening::open_store;
pub use stop::OpenStop;
