//! The log of a store: what each batch adds, record after record, each safe on the disk before it is answered.
//!
//! A record stands behind a gate byte. It counts once its gate is open, and the gate is opened only
//! when all behind it is on the disk, the closed gate of the next record too. So a crash leaves the
//! log without the record or with all of it.
#![tactic(auto)]

mod appending;
mod fault;
mod reading;

pub use appending::append;
pub use fault::LogFault;
pub use reading::{Found, next};

/// The byte of an open gate. Any other byte is a closed one.
const OPEN: u8 = 0xA5;
