//! What is counted of a batch.

ghost use Rattle.std.specs.Prelude.{◌≡◌, ◌<◌, ◌≤◌, ◌^◌, [], ◌∷◌, length, map as over};
ghost use Rattle.sf_value.specs.declared.Reply.{Reply};
ghost use Rattle.batch_output.specs.Vocabulary.{core_of, IsPlanOf};
ghost use Rattle.batch_replies.specs.BatchAnswers.{failure_count};

use batch_output::{Engine, Planned};
use sf_value::{Outcome, Reply};

/// What a batch came to, for its trace line and the tally.
#[derive(Clone, Copy, PartialEq, Eq, Debug)]
pub struct BatchCounts {
    /// How many requests waited.
    pub pending: u32,
    /// How many of them were committed.
    pub committed: u32,
    /// How many of the committed ones failed.
    pub failed: u32,
    /// How many events operators handled.
    pub events: u64,
}

/// What a plan of an engine comes to.
pub(crate) fn counts_of(engine: &Engine, planned: &Planned) -> BatchCounts
    requires { IsPlanOf engine.now planned.now }
    ensures pending { result.pending ≡ length (core_of engine.now).pending }
    ensures committed { result.committed ≡ length planned.now.batch.committed }
    ensures failed { result.failed ≡ failure_count (over (λ (reply : Reply). reply.outcome) planned.now.replies) }
    ensures events { result.events ≡ planned.now.events }
{
    let pending = engine.pending().len() as u32;
    let committed = planned.batch.committed.len() as u32;
    BatchCounts {
        pending,
        committed,
        failed: failure_count(planned.replies.as_slice()),
        events: planned.events,
    }
}

fn failure_count(replies: &[Reply]) -> u32
    requires { length replies.now < 2 ^ 32 }
    ensures { result ≡ failure_count (over (λ (reply : Reply). reply.outcome) replies.now) }
{
    let mut count = 0;
    for reply in replies {
        count += failures_in(&reply.outcome);
    }
    count
}

/// 1 for a failure, and 0 for a value.
fn failures_in(outcome: &Outcome) -> u32
    ensures value { result ≡ failure_count (outcome.now ∷ []) }
    ensures most { result ≤ 1 }
{
    match outcome {
        Outcome::Value(_) => 0,
        Outcome::Failed(_) => 1,
    }
}
