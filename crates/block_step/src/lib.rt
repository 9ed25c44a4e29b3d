//! A compiled program, and one event of it on one record.
#![tactic(auto)]

mod compiled;
mod handling;

pub use compiled::Compiled;
pub use event_step::Handled;
pub use handling::handle;
