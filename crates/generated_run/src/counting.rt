//! What the history of an engine holds.

ghost use Rattle.std.specs.Prelude.{◌≡◌, ◌≤◌, [], ◌∷◌, length};
ghost use Rattle.program_meaning.specs.Serial.{outcomes_of};
ghost use Rattle.batch_session.specs.Vocabulary.{failure_count};
ghost use Rattle.engine.specs.EngineViews.{core_of};

use engine::Engine;
use sf_value::Outcome;

/// How many entries there are, and how many of them failed.
#[derive(Clone, Copy)]
pub struct EntryCounts {
    pub committed: u32,
    pub failed: u64,
}

/// Counts the entries of the history, one after another.
pub(crate) fn count_entries(engine: &Engine) -> EntryCounts
    ensures committed { result.committed ≡ length (core_of engine.now).history }
    ensures failed { result.failed ≡ failure_count (outcomes_of (core_of engine.now).history) }
{
    let mut failed = 0;
    for before in 0..u32::MAX {
        match engine.entry(before + 1) {
            Some(found) => failed += failures_in(&found.committed.outcome),
            None => {
                return EntryCounts {
                    committed: before,
                    failed,
                };
            }
        }
    }
    EntryCounts {
        committed: u32::MAX,
        failed,
    }
}

/// 1 for a failure, and 0 for a value.
fn failures_in(outcome: &Outcome) -> u64
    ensures value { result ≡ failure_count (outcome.now ∷ []) }
    ensures most { result ≤ 1 }
{
    match outcome {
        Outcome::Value(_) => 0,
        Outcome::Failed(_) => 1,
    }
}
