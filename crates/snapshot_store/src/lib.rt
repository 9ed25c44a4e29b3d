//! The snapshots of a store: in which of two slots the newest is, and how the next one takes the other.
//!
//! A slot counts once its gate is open, and the gate is opened only when all behind it is on the
//! disk, with what was to be added to the history, and the log that goes with it is empty. Until then
//! the other slot counts, which isn't touched, nor is what it names of the history. So a crash leaves
//! the snapshot from before or the new one.
//!
//! What a checkpoint writes is put a page at a time as it is spelled, and its size is counted before by what puts it. So a
//! checkpoint takes no memory.
#![tactic(auto)]

mod checkpoints;
mod fault;
mod files;
mod front;
mod paged;
mod reading;
mod spelled;

pub use checkpoints::{append_history, checkpoint, clear_log, close_slot, fill_slot, open_slot};
pub use fault::SnapFault;
pub use files::{log_of, slot_file};
pub use reading::{Kept, newest};
pub use spelled::checkpoint_of;

/// The byte of an open gate. Any other byte is a closed one.
const OPEN: u8 = 0xA5;
