//! How a session serves, and what stays the same through it.

use std::alloc::Global;

/// How a session serves.
#[derive(Clone, Copy, PartialEq, Eq, Debug)]
pub struct Settings {
    /// How many requests make a batch, 1 to 256.
    pub batch: u32,
    /// How many partitions there are, 1 to 64.
    pub parts: u32,
    /// How many bytes of input a session may have.
    pub limit: u64,
    /// Whether each batch writes a line to the trace.
    pub trace: bool,
}

/// What stays the same through a session: how it serves, by which rule it commits, and where it takes
/// memory.
#[derive(Drop)]
pub struct Terms<'a, R> {
    pub alloc: Global,
    pub settings: &'a Settings,
    pub rule: &'a R,
}
