//! What one transaction of a batch has done so far: for each entity that it handled an event of, its own
//! record over the snapshot's, and whether it wrote it.
//!
//! Few entities stand in a list, and many are found by hash. What a transaction hands over in the end costs as
//! much as it has touched entities.
#![tactic(auto)]

mod buffers;
mod handing_over;

pub use buffers::Buffers;
