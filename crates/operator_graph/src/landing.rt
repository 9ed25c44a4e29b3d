//! What the requests of a batch have come to, taken out of their last events.

ghost use Rattle.std.specs.Prelude.{◌≡◌, true, length, IfOk};
ghost use Rattle.transaction_steps.specs.Transactions.{is_done};
ghost use Rattle.operator_graph.specs.Going.{going, come_to, all_come_to};

use crate::flight::Flights;
use block_code::EventKind;
use sf_list::Sequence;
use sf_value::{Outcome, Outcomes, Value};
use std::alloc::{AllocError, Global};
use std::mem;

/// So many outcomes, to be replaced.
pub(crate) fn blank_outcomes(alloc: Global, count: usize) -> Result<Outcomes, AllocError>
    ensures { IfOk result (λ made. length made ≡ count) }
{
    let mut made = Sequence::new(alloc);
    for _ in 0..count {
        made.push(alloc, Outcome::Value(Value::Nil))?;
    }
    Ok(made)
}

fn take_outcome(kind: &mut EventKind) -> Outcome
    requires { is_done kind.old ≡ true }
    ensures { result ≡ come_to kind.old }
{
    match kind {
        EventKind::Done(outcome) => mem::replace(outcome, Outcome::Value(Value::Nil)),
        // all are over
        _ => unreachable!(),
    }
}

/// Takes the outcomes out, and puts them in place of those that are there. It takes no memory.
pub(crate) fn take_outcomes(flights: Flights, outcomes: Outcomes) -> Outcomes
    requires over { going flights ≡ 0 }
    requires as_many { length outcomes ≡ length flights }
    ensures { result ≡ all_come_to flights }
{
    let mut flights = flights;
    let mut outcomes = outcomes;
    for place in 0..flights.len() {
        let outcome = take_outcome(&mut flights.at_mut(place).next.kind);
        outcomes.set(place, outcome);
    }
    drop(flights);
    outcomes
}
