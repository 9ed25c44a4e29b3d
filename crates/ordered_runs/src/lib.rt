//! Requests run one after another by the compiled graph, each on the state left by those before it.
//!
//! Requests that don't stand in each other's way run together, as a batch does; others run one by one, on a
//! copy of the state.
#![tactic(auto)]

mod copying;
mod one_by_one;
mod ordered;
mod together;

pub use aria_batch::{BatchResult, Watch, run_batch};
pub use ordered::{Ordered, run_in_order};
