//! The words of a call: which command they ask for, on which file and with which settings.
//!
//! The grammar of the words stands in `specs/Grammar` and `specs/Commands`. Words of no command's form are refused
//! here; one command of `clap` for each name reads the rest, every option as text; the numbers are read here again.
#![tactic(auto)]

mod asking;
mod command;
mod laws;
mod numbers;
mod parser;
mod reading;
mod settings;

pub use asking::command_of;
pub use command::{Command, GenWords, RunWords, WordsError};
pub use laws::words_are_read_by_grammar;
