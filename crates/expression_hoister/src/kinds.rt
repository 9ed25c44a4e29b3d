//! Expressions over what is left of their parts, a kind each.

ghost use Rattle.std.specs.Prelude.{◌≡◌, IfOk};
ghost use Rattle.py_tree.specs.PlainExpressions.{PIndex, PList, PNeg, PPos, PNot, PChain, PCall, PApply, PCompare, PIsNone, PNoLink};
ghost use Rattle.hoisting.specs.HoistExpressions as spec;
ghost use Rattle.hoisting.specs.HoistExpressions.{built};
ghost use Rattle.hoisting.specs.Views.{hoisted_at, each_at, call_at, two_at};

use hoisting::Stage;
use hoisting::parts::{Hoisted, HoistedCall, HoistedEach, HoistedTwo};
use py_tree::nodes::{
    apply_of, call_of, chain, comparison_of, index_of, is_none_of, list_of, neg_of, not_of, pos_of,
};
use py_tree::{Cmp, Name, Place, PlacedName};
use sf_list::Sequence;
use std::alloc::{AllocError, Global};

pub fn negated(
    alloc: Global,
    stage: &Stage,
    place: Place,
    a: Hoisted,
) -> Result<Hoisted, AllocError>
    ensures { IfOk result (λ made. hoisted_at made stage.now ≡ built (PNeg place) (hoisted_at a stage.now)) }
{
    let rest = neg_of(alloc, place, a.rest)?;
    Ok(Hoisted {
        before: a.before,
        rest,
    })
}

pub fn posed(alloc: Global, stage: &Stage, place: Place, a: Hoisted) -> Result<Hoisted, AllocError>
    ensures { IfOk result (λ made. hoisted_at made stage.now ≡ built (PPos place) (hoisted_at a stage.now)) }
{
    let rest = pos_of(alloc, place, a.rest)?;
    Ok(Hoisted {
        before: a.before,
        rest,
    })
}

pub fn inverted(
    alloc: Global,
    stage: &Stage,
    place: Place,
    a: Hoisted,
) -> Result<Hoisted, AllocError>
    ensures { IfOk result (λ made. hoisted_at made stage.now ≡ built (PNot place) (hoisted_at a stage.now)) }
{
    let rest = not_of(alloc, place, a.rest)?;
    Ok(Hoisted {
        before: a.before,
        rest,
    })
}

/// `a is None`, or `a is not None`.
pub fn none_test(
    alloc: Global,
    stage: &Stage,
    place: Place,
    a: Hoisted,
    positive: bool,
) -> Result<Hoisted, AllocError>
    ensures { IfOk result (λ made. hoisted_at made stage.now ≡ built (λ r. PIsNone place r positive) (hoisted_at a stage.now)) }
{
    let rest = is_none_of(alloc, place, a.rest, positive)?;
    Ok(Hoisted {
        before: a.before,
        rest,
    })
}

/// A run without links.
pub fn alone(alloc: Global, stage: &Stage, place: Place, a: Hoisted) -> Result<Hoisted, AllocError>
    ensures { IfOk result (λ made. hoisted_at made stage.now ≡ built (λ r. PChain place r PNoLink) (hoisted_at a stage.now)) }
{
    let rest = chain(alloc, place, a.rest, Sequence::new(alloc))?;
    Ok(Hoisted {
        before: a.before,
        rest,
    })
}

pub fn listed(stage: &Stage, place: Place, items: HoistedEach) -> Hoisted
    ensures { hoisted_at result stage.now ≡ built (PList place) (each_at items stage.now) }
{
    Hoisted {
        before: items.before,
        rest: list_of(place, items.rest),
    }
}

pub fn indexed(
    alloc: Global,
    stage: &Stage,
    place: Place,
    two: HoistedTwo,
) -> Result<Hoisted, AllocError>
    ensures { IfOk result (λ made. hoisted_at made stage.now ≡ built (λ r. PIndex place r.0 r.1) (two_at two stage.now)) }
{
    let rest = index_of(alloc, place, two.first, two.second)?;
    Ok(Hoisted {
        before: two.before,
        rest,
    })
}

pub fn compared(
    alloc: Global,
    stage: &Stage,
    place: Place,
    op: Cmp,
    op_place: Place,
    two: HoistedTwo,
) -> Result<Hoisted, AllocError>
    ensures { IfOk result (λ made. hoisted_at made stage.now ≡ built (λ r. PCompare place op op_place r.0 r.1) (two_at two stage.now)) }
{
    let rest = comparison_of(alloc, place, op, op_place, two.first, two.second)?;
    Ok(Hoisted {
        before: two.before,
        rest,
    })
}

/// A call that doesn't suspend, over what is left of its parts.
pub fn called(
    alloc: Global,
    stage: &Stage,
    place: Place,
    name: PlacedName,
    parts: HoistedCall,
) -> Result<Hoisted, AllocError>
    ensures { IfOk result (λ made. hoisted_at made stage.now ≡ built (λ r. PCall place r.0 name.name.0 name.place r.1) (call_at parts stage.now)) }
{
    let rest = call_of(alloc, place, parts.on, name, parts.args)?;
    Ok(Hoisted {
        before: parts.before,
        rest,
    })
}

/// A function, over what is left of its arguments.
pub fn applied(stage: &Stage, place: Place, name: Name, args: HoistedEach) -> Hoisted
    ensures { hoisted_at result stage.now ≡ built (PApply place name.0) (each_at args stage.now) }
{
    Hoisted {
        before: args.before,
        rest: apply_of(place, name, args.rest),
    }
}

/// Two expressions, one after another.
pub fn two_of(
    alloc: Global,
    stage: &Stage,
    first: Hoisted,
    second: Hoisted,
) -> Result<HoistedTwo, AllocError>
    ensures { IfOk result (λ made. two_at made stage.now ≡ spec.in_turn (λ a b. (a, b)) (hoisted_at first stage.now) (λ g. hoisted_at second stage.now)) }
{
    let mut before = first.before;
    before.append(alloc, second.before)?;
    Ok(HoistedTwo {
        before,
        first: first.rest,
        second: second.rest,
    })
}

/// A receiver, and arguments after it.
pub fn call_with(
    alloc: Global,
    stage: &Stage,
    on: Hoisted,
    args: HoistedEach,
) -> Result<HoistedCall, AllocError>
    ensures { IfOk result (λ made. call_at made stage.now ≡ spec.in_turn spec.with_args (hoisted_at on stage.now) (λ g. each_at args stage.now)) }
{
    let mut before = on.before;
    before.append(alloc, args.before)?;
    Ok(HoistedCall {
        before,
        on: on.rest,
        args: args.rest,
    })
}
