//! What a program's text is, once it is accepted: UTF-8, and short; and what its program writes is
//! real.
//!
//! The definitions stand in `specs/`, what they say by themselves at the functions of `laws`. Nothing
//! here reads a text.
#![tactic(auto)]

mod laws;

pub use laws::{accepted_programs_are_real, accepted_texts_are_utf8};
