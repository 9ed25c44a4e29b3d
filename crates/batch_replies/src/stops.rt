//! Why a batch or a line isn't answered in full.

/// Why a session stops at a batch, or at a line behind which one may be due.
#[derive(Clone, Copy, PartialEq, Eq, Debug)]
pub enum Stop {
    /// The history has no place for as many entries as requests wait, so the batch that is due doesn't
    /// run.
    HistoryFull,
    /// Memory is wanted, for a line or for the batch that is due, of which nothing is committed then; or
    /// behind a batch for a checkpoint.
    NoMemory,
    /// The store can't be written: the record of the batch that is due, of which nothing is committed then and
    /// which the store has or not; or a checkpoint behind a batch.
    DiskFault,
    /// Something can't be written in full: what a line is answered at once, the replies to a batch that is
    /// committed, or its line of the trace.
    WriteFault,
}
