//! The events of the requests of a batch, which take turns as picks say, mean each request's own run.
#![tactic(auto)]

mod laws;

pub use laws::{batches_come_to_their_runs, committed_along_picks};
pub use operator_graph::{InFlight, NoWatch, Watch};
