//! What a rule commits of a batch is a serial run.
//!
//! A batch is requests that each ran on one snapshot, by themselves. The crate runs nothing.
#![tactic(auto)]

mod laws;

pub use laws::committed_is_serial;
