//! What the runs of a program leave stays short: no text and no list of it has more than a count of
//! four bytes can say. And it stays real: its ints have 128 bits, and its texts are of Unicode's
//! characters.
//!
//! The definitions stand in `specs/`, what they say by themselves at the functions of `laws`. Nothing
//! here runs a program.
#![tactic(auto)]

mod laws;

pub use laws::{runs_are_real, runs_are_short};
