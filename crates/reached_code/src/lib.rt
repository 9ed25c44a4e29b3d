//! No part of a hoisted method is dead.
//!
//! What is said of hoisted methods is a definition, in `specs/`; that it holds of each of them is said at the function of
//! `laws`.
#![tactic(auto)]

mod laws;

pub use laws::no_part_is_dead;
