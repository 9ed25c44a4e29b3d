//! The engine: what was committed with the state behind it, the requests that wait, and the batches that
//! commit them.
#![tactic(auto)]

mod arrival;
mod arriving;
mod copying;
mod engine;
mod keeping;
mod laws;
mod moves;
mod planned;
mod planning;
mod replaying;
mod restore_error;
mod restoring;

pub use arrival::Arrival;
pub use engine::Engine;
pub use laws::{arrivals_say, plans_replay};
pub use planned::{PlanFault, Planned};
pub use restore_error::RestoreError;
