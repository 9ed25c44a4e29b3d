//! Serving: reads request lines from a source, runs each request at once, and writes reply lines to a
//! sink.
#![tactic(auto)]

mod answering;
mod feeding;
mod laws;
mod serving;
mod stopping;

pub use answering::Standing;
pub use feeding::InputEnd;
pub use laws::{answers_fit, answers_what_was_taken, replies_are_serial, serves_serially};
pub use serving::serve;
pub use stopping::SessionStop;
