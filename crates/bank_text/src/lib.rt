//! The bank's program, which `gen` serves, is accepted.
//!
//! The statement stands in `specs/`, the law that claims it at the function of `laws`. Nothing here
//! reads a text when it runs.
#![tactic(auto)]

mod laws;

pub use laws::bank_is_accepted;
