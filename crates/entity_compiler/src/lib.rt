//! From the text of a program to its compiled program, or to its first fault.
//!
//! This crate composes: a text is accepted, its calls are marked, each method is made flat and split
//! into blocks, and the graph of these is one of the program.
#![tactic(auto)]

mod classes;
mod compiling;
mod laws;
mod methods;

pub use block_step::Compiled;
pub use compiling::compile;
pub use laws::compiled_take_live;
pub use program_text::{ProgramError, ProgramFault};
