//! What a run came to, summed up.

ghost use Rattle.std.specs.Prelude.{◌≡◌, IfOk};
ghost use Rattle.wide_sums.specs.Sums.{sum_of};
ghost use Rattle.engine.specs.EngineViews.{core_of};
ghost use Rattle.generated_run.specs.Totals.{balance_of, added_up, IsTotal};
ghost use Rattle.generated_run.specs.Summaries.{counted_by, IsSummary};

use crate::counting::count_entries;
use batch_session::Tally;
use engine::Engine;
use sf_value::{Held, Value};
use std::alloc::{AllocError, Global};
use wide_sums::Sum;

/// What a run on generated work came to.
#[derive(Drop)]
pub struct Summary {
    pub requests: u32,
    pub committed: u32,
    /// How many of the committed requests failed.
    pub failed: u64,
    pub batches: u64,
    /// How many events operators handled.
    pub events: u64,
    /// The sum of all balances.
    pub total: Sum,
}

/// What an account holds: the second field of its record.
fn balance_of(held: &Held) -> i128
    ensures { result ≡ balance_of held.now }
{
    match held.fields.fields.get(1) {
        Some(Value::Int(balance)) => *balance,
        _ => 0,
    }
}

/// The sum of the balances of these records.
fn added_up(records: &[Held]) -> Sum
    ensures { sum_of result ≡ added_up records.now }
{
    let mut total = Sum::nothing();
    for held in records {
        total = total.plus(balance_of(held));
    }
    total
}

/// The sum of all balances in the state.
fn total_of(alloc: Global, engine: &Engine) -> Result<Sum, AllocError>
    ensures { IfOk result (λ total. IsTotal (core_of engine.now).state (sum_of total)) }
{
    let records = engine.state().records(alloc)?;
    let total = added_up(records.as_slice());
    drop(records);
    Ok(total)
}

/// What a run of so many requests came to, where its batches are counted.
pub(crate) fn summary_of(
    alloc: Global,
    engine: &Engine,
    requests: u32,
    tally: Tally,
) -> Result<Summary, AllocError>
    ensures { IfOk result (λ summary. IsSummary requests (core_of engine.now) (counted_by tally) summary) }
{
    let total = total_of(alloc, engine)?;
    let entries = count_entries(engine);
    Ok(Summary {
        requests,
        committed: entries.committed,
        failed: entries.failed,
        batches: tally.batches,
        events: tally.events,
        total,
    })
}
