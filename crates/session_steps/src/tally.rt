//! What is counted of a session.

use line_answers::BatchCounts;

/// What the batches of a session came to. A count that would be greater than it can hold stays there.
#[derive(Clone, Copy, PartialEq, Eq, Debug)]
pub struct Tally {
    pub batches: u64,
    /// How many events operators handled.
    pub events: u64,
    /// How many of the committed requests failed.
    pub failed: u64,
}

impl Tally {
    ghost use Rattle.std.specs.Prelude.{◌≡◌};
    ghost use Rattle.session_steps.specs.Traces.{no_batch, with_batch};

    /// Of no batch.
    pub fn new() -> Tally
        ensures { result ≡ no_batch }
    {
        Tally {
            batches: 0,
            events: 0,
            failed: 0,
        }
    }

    /// Counts a batch.
    pub fn count(&mut self, counts: BatchCounts)
        ensures { self.new ≡ with_batch self.old counts }
    {
        self.batches = self.batches.saturating_add(1);
        self.events = self.events.saturating_add(counts.events);
        self.failed = self.failed.saturating_add(counts.failed as u64);
    }
}
