//! The operators of the dataflow: which one serves an entity, the events of a batch that are in flight
//! between them, and what is told of these.
//!
//! The state of the entities is partitioned by their keys; an operator serves the entities of one class
//! whose keys fall into one partition.
#![tactic(auto)]

mod first_flights;
mod flight;
mod going;
mod in_flight;
mod landing;
mod memory_watch;
mod routing;
mod taking_turns;
mod watch;

pub use in_flight::InFlight;
pub use memory_watch::{MemWatch, Note, Notes};
pub use routing::{operator_of, partition};
pub use watch::{NoWatch, Watch};
