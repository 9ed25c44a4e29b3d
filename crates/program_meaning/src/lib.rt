//! What a program means: its requests run on the state of its entities, one after another.
//!
//! The definitions stand in `specs/`, from expressions up to serial runs, and what they say by
//! themselves at the functions of `laws`. Nothing here runs a program.
#![tactic(auto)]

mod laws;
mod vars;

pub use laws::nothing_goes_wrong;
pub use vars::{Var, Vars};
