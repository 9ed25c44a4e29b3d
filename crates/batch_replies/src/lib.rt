//! Batches that are due: each is run, logged where there is a store, committed and answered.
#![tactic(auto)]

mod answering;
mod counting;
mod drafts;
mod lines;
mod stops;
mod writing;

pub use answering::answer_batch;
pub use counting::BatchCounts;
pub use session_store::Store;
pub use stops::Stop;
