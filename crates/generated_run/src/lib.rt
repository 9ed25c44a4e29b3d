//! Generated work, run to its end: a bank's program serves the requests that are made from a number, in
//! batches, and what that came to is summed up in one line.
#![tactic(auto)]

mod counting;
mod devices;
mod printing;
mod running;
mod summing;

pub use devices::DroppingSink;
pub use printing::write_summary;
pub use running::{GenSettings, run_generated};
pub use summing::Summary;
