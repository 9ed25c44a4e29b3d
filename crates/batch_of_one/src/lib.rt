//! A session with batches of one request prints what one prints that serves each request at once.
//!
//! Nothing here runs.
#![tactic(auto)]

mod laws;

pub use laws::{batch_of_one_is_local, writes_as_batches_of_one};
