//! A driver that serves lines by an engine in batches, as a session does, in its simplest form, and tables of lines with what they are
//! answered, for the crates of tests.
#![tactic(auto)]

mod answers;
mod driver;
mod request_lines;
mod taking;

pub use answers::other_answer;
pub use driver::{Driver, Options, compiled_of, new_engine};
pub use taking::take_lines;
