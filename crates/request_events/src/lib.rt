//! The events of one request, run alone on a graph, mean its source.
#![tactic(auto)]

mod laws;

pub use laws::events_mean_their_source;
