//! The parser: from logical lines of tokens to the tree of a program, or to the first token that is refused.
//!
//! The grammar stands in `py_tree`, as relations between what is left to read and what reading it
//! comes to. Each function here reads one part of it and cites that part's rules. Tokens are read
//! once, from the left, and the next token decides; recursion is bounded by the 64 levels.
#![tactic(auto)]

mod classes;
mod expressions;
mod input;
mod looking;
mod numbering;
mod program;
mod reserved;
mod simple_statements;
mod spelling;
mod statements;
mod syntax_error;
mod types;

pub use program::{Parsed, parse};
pub use syntax_error::SyntaxError;
