//! What a session in batches does, step by step, as a definition: what steps print, which batches they run, and where a session has stopped
//! among them. Beside it what such a session counts and traces of its batches.
#![tactic(auto)]

mod laws;
mod pieces;
mod tally;
mod tracing;

pub use laws::{comes_begin, steps_print};
pub use line_answers::{BatchCounts, InputLine, Settings, Stop, Terms, answer_batch, answer_line};
pub use pieces::write_pieces;
pub use tally::Tally;
pub use tracing::write_trace;
