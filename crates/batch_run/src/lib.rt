//! A run of a compiled program: its input is served in batches along a schedule, from nothing committed on, or from the core of an engine and on its
//! store.
#![tactic(auto)]

mod rule;
mod running;

pub use batch_session::{SessionFault, Tally, write_pieces};
pub use running::{RunSettings, StoredEngine, run_opened, run_program};
