//! One event on one record, and what blocks do.
//!
//! Blocks have two meanings that share all but their calls: on the whole state, where a call recurses,
//! and on the record of one entity, where the method waits in a frame.
#![tactic(auto)]

mod laws;

pub use laws::{events_step_well, one_step, steps_fall};
