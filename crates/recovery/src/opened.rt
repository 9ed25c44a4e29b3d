//! What a store has when it is found again.

use sf_list::Sequence;
use sf_value::{BatchRecord, Snapshot};

/// A batch, and the place of its record in the log.
#[derive(Drop)]
pub struct Placed {
    pub at: u64,
    pub batch: BatchRecord,
}

/// Batches in the order of their records.
pub type Batches = Sequence<Placed>;

/// What is found.
#[derive(Drop)]
pub enum Opened {
    /// No snapshot was kept yet.
    New,
    /// The newest snapshot with its epoch, how many bytes its history takes, the batches of its log, and
    /// the place of the gate where the log ends.
    Old {
        epoch: u64,
        kept: Snapshot,
        bytes: u64,
        batches: Batches,
        at: u64,
    },
}
