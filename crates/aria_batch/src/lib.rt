//! One batch: its requests run as transactions whose events take turns, and a rule commits some of them.
//!
//! What each comes to, and so what is committed, is the same whatever the turns.
#![tactic(auto)]

mod batch;
mod events;

pub use batch::{BatchResult, run_batch};
pub use batch_events::{NoWatch, Watch};
