//! The parts of an engine that was kept, made again of what was read: its history, its state, and tests of
//! its ids, its places and of all that has to fit a program.
#![tactic(auto)]

mod fitting;
mod ids;
mod listing;
mod making;
mod places;

pub use fitting::{entries_fit, records_fit, requests_fit};
pub use ids::ids_differ;
pub use listing::entries_behind;
pub use making::{history_of, state_of};
pub use places::are_places;
