//! What a session prints that serves its input in batches, as a definition, and that it is one serial run.
//!
//! Nothing here runs.
#![tactic(auto)]

mod laws;

pub use engine::{Engine, PlanFault, Planned};
pub use laws::{batches_are_serial, batches_end, requests_kept};
