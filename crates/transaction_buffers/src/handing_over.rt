//! What a transaction has done, handed over as a work.

ghost use Rattle.std.specs.Prelude.{◌≡◌, [], ◌∷◌, ◌++◌, IfOk, OnOk};
ghost use Rattle.std.specs.List.{IsDistinct};
ghost use Rattle.few_entities.specs.Entries.{is_ref, refs_of};
ghost use Rattle.transaction_buffers.specs.HandingOver.{IsHandedOver, written, records_of, record_of};

use crate::buffers::Touched;
use keyed_state::Work;
use sf_list::TryClone;
use sf_value::{Held, Record, Ref};
use std::alloc::{AllocError, Global};

/// The work of a transaction that has done this with these entities.
pub(crate) fn work_of(alloc: Global, entities: Vec<(Ref, Touched)>) -> Result<Work, AllocError>
    requires { IsDistinct is_ref (refs_of entities.items) }
    ensures { IfOk result (IsHandedOver entities.items) }
{
    let mut work = Work::new(alloc);
    for (at, touched) in entities {
        add(&mut work, alloc, at, touched)?;
    }
    Ok(work)
}

fn add(work: &mut Work, alloc: Global, at: Ref, touched: Touched) -> Result<(), AllocError>
    ensures reads { OnOk result (work.new.reads ≡ work.old.reads ++ at ∷ []) }
    ensures writes { OnOk result (work.new.writes ≡ work.old.writes ++ written ((at, touched) ∷ [])) }
    ensures held { OnOk result (work.new.held ≡ work.old.held ++ records_of ((at, touched) ∷ [])) }
{
    if touched.wrote {
        add_written(work, alloc, &at, touched.own)?;
    }
    work.reads.push(alloc, at)
}

fn add_written(
    work: &mut Work,
    alloc: Global,
    at: &Ref,
    own: Option<Record>,
) -> Result<(), AllocError>
    ensures reads { work.new.reads ≡ work.old.reads }
    ensures writes { OnOk result (work.new.writes ≡ work.old.writes ++ at.now ∷ []) }
    ensures held { OnOk result (work.new.held ≡ work.old.held ++ record_of at.now own) }
{
    work.writes.push(alloc, at.try_clone(alloc)?)?;
    if let Some(fields) = own {
        let at = at.try_clone(alloc)?;
        work.held.push(alloc, Held { at, fields })?;
    }
    Ok(())
}

/// The work of a transaction that failed: it has read these entities, and written nothing.
pub(crate) fn reads_of(alloc: Global, entities: Vec<(Ref, Touched)>) -> Result<Work, AllocError>
    ensures reads { IfOk result (λ w. w.reads ≡ refs_of entities.items) }
    ensures writes { IfOk result (λ w. w.writes ≡ []) }
{
    let mut work = Work::new(alloc);
    for (at, _) in entities {
        work.reads.push(alloc, at)?;
    }
    Ok(work)
}
