//! What a file of request lines and reply lines is.

use sf_value::Bytes;

/// A verdict. Entries and lines are numbered from 1.
#[derive(Drop)]
pub enum Verdict {
    /// Each reply is the one that a serial run of the requests gives.
    Serial {
        entries: u32,
    },
    /// The reply of this entry isn't.
    Differs {
        place: u32,
        wanted: Bytes,
        found: Bytes,
    },
    /// This line is no request or no reply, or is missing.
    BadRun {
        line: u64,
    },
}
