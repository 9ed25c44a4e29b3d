//! From the text of a program to the accepted program, or to its first fault.
//!
//! Everything that takes a program's text judges it here: its logical lines, then its tree, then its
//! rules, those on classes before those on types and statements.
#![tactic(auto)]

mod acceptance;
mod fault;
mod laws;

pub use acceptance::{Accepted, accept};
pub use fault::{ProgramError, ProgramFault};
pub use laws::has_one_reading;
