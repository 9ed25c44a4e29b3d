//! From a program's text to its logical lines of tokens, or to its first fault.
//!
//! The rules are those of the Python Language Reference, lexical analysis, for the part of the
//! language that programs are written in. They stand in `specs/LogicalLines.antt`, without the
//! stack of columns that the code keeps. Tokens refer to the text by their spans, so nothing of it
//! is copied.
#![tactic(auto)]

mod columns;
mod cursor;
mod fault;
mod gaps;
mod laws;
mod lines;
mod scan;
mod signs;
mod strings;
mod text;
mod token;
mod words;

pub use fault::{LexError, LexFault, LexKind};
pub use laws::has_one_outcome;
pub use lines::lex;
pub use text::str_text;
pub use token::{Line, Lines, Token, TokenKind, Tokens};
