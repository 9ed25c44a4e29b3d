//! A reader that gives an input line by line: it takes the input in pieces, and searches each for its line ends.
#![tactic(auto)]

mod content;
mod laws;
mod lines;
mod pieces;
mod start;

pub use content::{LONGEST, trimmed};
pub use laws::{lines_are_given_in_turn, lines_end_at_line_ends, pieces_are_cut_in_turn};
pub use lines::{Lines, Next};
