//! A store as it is found again: whether it is new, or old with a snapshot and the batches behind it, or bad at a place.
//!
//! Each file is made safe before it is read. What is told of the store is then left by each crash to
//! come, until something is written.
#![tactic(auto)]

mod fault;
mod history;
mod laws;
mod log;
mod opened;
mod opening;

pub use fault::OpenFault;
pub use laws::{checkpoint_begins_anew, holds_batches, is_one_store, record_adds_batch};
pub use opened::{Batches, Opened, Placed};
pub use opening::reopen;
