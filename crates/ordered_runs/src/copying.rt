//! Copies of a state and of works.

ghost use Rattle.std.specs.Prelude.{◌≡◌, IfOk};

use kept_parts::state_of;
use keyed_state::{Keyed, Work, Works};
use sf_list::{Sequence, TryClone};
use std::alloc::{AllocError, Global};

/// A state that holds the same records, in the same order.
pub(crate) fn copy_of_state(alloc: Global, state: &Keyed) -> Result<Keyed, AllocError>
    ensures { IfOk result (λ made. made.contents ≡ state.now.contents) }
{
    let records = state.records(alloc)?;
    match state_of(alloc, records)? {
        Some(copy) => Ok(copy),
        // a state lists each entity once
        None => unreachable!(),
    }
}

pub(crate) fn copy_of_works(alloc: Global, works: &Works) -> Result<Works, AllocError>
    ensures { IfOk result (λ made. made ≡ works.now) }
{
    let mut made = Sequence::new(alloc);
    for work in works.as_slice() {
        made.push(alloc, copy_of_work(alloc, work)?)?;
    }
    Ok(made)
}

fn copy_of_work(alloc: Global, work: &Work) -> Result<Work, AllocError>
    ensures { IfOk result (λ made. made ≡ work.now) }
{
    Ok(Work {
        held: work.held.try_clone(alloc)?,
        reads: work.reads.try_clone(alloc)?,
        writes: work.writes.try_clone(alloc)?,
    })
}
