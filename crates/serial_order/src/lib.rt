//! What a run depends on, and why requests that don't conflict are a serial run.
//!
//! The definitions stand in `specs/`, what they say by themselves at the functions of `laws`. Nothing
//! here runs a program.
#![tactic(auto)]

mod laws;

pub use laws::{conflict_free_is_serial, runs_depend_on_reads};
