//! How far the run of a request is.

use crate::transaction::Transaction;

/// How many expressions and statements may be under way at once, one within the other.
///
/// Each takes at most 1,700 bytes of stack, with all that it calls until the next one begins: the most
/// are those of a call in a chain of receivers, with its arguments. So 4,300 of them take at most 7 MiB
/// of the 8 that a system usually gives. Code whose levels hold one expression each needs fewer: 64
/// calls of 64 levels with two expressions or statements more. No contract sees the number: where it is
/// reached, the run stops for want of memory.
pub(crate) const NESTING_LIMIT: u32 = 4_300;

/// What the code of a request has done, and what it may still do.
#[derive(Drop)]
pub(crate) struct Run {
    pub(crate) tx: Transaction,
    /// The steps that are left.
    pub(crate) steps: u32,
    /// The expressions and statements that are under way.
    pub(crate) nesting: u32,
}
