//! The store of a session: the record of a batch goes to its log before the batch is committed, and a checkpoint follows after every so many batches.
//!
//! A session may have no store; then the calls do nothing, and there is a disk that does nothing either.
#![tactic(auto)]

mod checkpoints;
mod lending;
mod logging;
mod no_disk;
mod store;

pub use checkpoints::{batch_ended, keep_core};
pub use logging::{log_planned, record_bytes};
pub use no_disk::NoDisk;
pub use store::{Store, StoreSettings};
