//! Generated work: the program of a bank, and requests that open its accounts and then move money.
//!
//! The same number and size give the same bytes everywhere, so that what two runs take and answer can
//! be compared.
#![tactic(auto)]

mod draws;
mod program;
mod requests;

pub use draws::next_number;
pub use requests::{Work, generate};
