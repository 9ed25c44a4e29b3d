//! Lines of the input that a session in batches takes: each is read, answered where it is answered at once,
//! and followed by a batch where one is due.
#![tactic(auto)]

mod answering;
mod reading;
mod settings;
mod taking;

pub use answering::answer_line;
pub use batch_replies::{BatchCounts, Stop, answer_batch};
pub use reading::InputLine;
pub use settings::{Settings, Terms};
