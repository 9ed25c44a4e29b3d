//! A place in a store, from which it goes on.

/// Where a store is. A new store has 0 everywhere.
#[derive(Clone, Copy, PartialEq, Eq, Debug)]
pub struct Position {
    /// The epoch of the newest snapshot.
    pub epoch: u64,
    /// The place of the closed gate where the log of that epoch ends.
    pub at: u64,
    /// How many bytes of the file of the history the snapshot names.
    pub bytes: u64,
    /// How many entries these are.
    pub kept: u32,
}
