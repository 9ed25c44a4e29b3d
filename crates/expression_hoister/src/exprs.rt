//! Expressions of which a part suspends, as values and as tests.

ghost use Rattle.std.specs.Prelude.{◌≡◌, None, IfOk, OnOk};
ghost use Rattle.flat_tree.specs.PlainFlat.{plain_operand};
ghost use Rattle.hoisting.specs.HoistExpressions as hoist;
ghost use Rattle.hoisting.specs.Views.{plain_stage, hoisted_at, each_at, call_at, two_at, forms_of};
ghost use Rattle.expression_hoister.specs.ExpressionViews as gives;
ghost use Rattle.expression_hoister.specs.ExpressionViews.{run_at, plain_tested, plain_tested_each, plain_way};

use crate::choices::{Tested, TestedEach, Way, choose, junction, leaf, literal_way, not_test};
use crate::kinds::{
    alone, applied, call_with, called, compared, indexed, inverted, listed, negated, none_test,
    posed, two_of,
};
use crate::runs::{Run, add_link, begin_anew, run_of, settle_run, so_far};
use crate::wants::{by_elements, by_function, by_params, up_to_last, wanted_at};
use entity_types::types::{element_wanted, right_wanted};
use flat_tree::Operand;
use flow_types::Locals;
use hoisting::parts::{
    Hoisted, HoistedCall, HoistedEach, HoistedTwo, lasts, settle, still, wait_call, wait_creation,
};
use hoisting::{Setting, Stage, surely, where_shown};
use py_tree::{Expr, ExprKind, Exprs, Link, Links, Name, Place, PlacedName, Ty, function_of};
use sf_list::Sequence;
use std::alloc::{AllocError, Global};

/// A call over what is left of its parts.
fn finish_call(
    alloc: Global,
    setting: &Setting<'_>,
    stage: &mut Stage,
    leaves: bool,
    place: Place,
    ty: Ty,
    on_ty: &Ty,
    name: PlacedName,
    parts: HoistedCall,
) -> Result<Hoisted, AllocError>
    ensures { IfOk result (λ made. hoisted_at made stage.new ≡ gives.called_in setting.now leaves place ty on_ty.now name parts stage.old) }
{
    if leaves {
        return wait_call(alloc, setting, stage, place, ty, on_ty, name, parts);
    }
    drop(ty);
    called(alloc, stage, place, name, parts)
}

/// A function or a creation over what is left of its arguments.
fn finish_apply(
    alloc: Global,
    setting: &Setting<'_>,
    stage: &mut Stage,
    place: Place,
    ty: Ty,
    name: Name,
    args: HoistedEach,
) -> Result<Hoisted, AllocError>
    ensures { IfOk result (λ made. hoisted_at made stage.new ≡ gives.applied_in setting.now place ty name args stage.old) }
{
    if function_of(name).is_none() {
        return wait_creation(alloc, setting, stage, place, ty, name, args);
    }
    drop(ty);
    Ok(applied(stage, place, name, args))
}

/// An expression as a value. Nothing else reads what is known at the stage while it is hoisted.
#[cycle(hoist)]
#[tactic(auto, using(py_tree::proofs::Sizes::expr_sizes))]
pub fn value(
    alloc: Global,
    setting: &Setting<'_>,
    stage: &mut Stage,
    wanted: Option<&Ty>,
    expr: &Expr,
) -> Result<Hoisted, AllocError>
    ensures { IfOk result (λ made. hoisted_at made stage.new ≡ gives.value_in setting.now wanted.entry expr.now stage.old) }
{
    if !setting.suspends(expr) {
        return still(alloc, stage, expr);
    }
    let place = expr.place;
    match &expr.kind {
        ExprKind::Call(on, name, args) => {
            call(alloc, setting, stage, wanted, expr, on, *name, args)
        }
        ExprKind::Apply(name, args) => apply(alloc, setting, stage, wanted, expr, *name, args),
        ExprKind::Index(on, index) => {
            let two = two(alloc, setting, stage, on, index)?;
            indexed(alloc, stage, place, two)
        }
        ExprKind::Compare(op, op_place, left, right) => {
            let two = two(alloc, setting, stage, left, right)?;
            compared(alloc, stage, place, *op, *op_place, two)
        }
        ExprKind::List(items) => list(alloc, setting, stage, wanted, place, items),
        ExprKind::Neg(a) => {
            let a = value(alloc, setting, stage, None, a)?;
            negated(alloc, stage, place, a)
        }
        ExprKind::Pos(a) => {
            let a = value(alloc, setting, stage, None, a)?;
            posed(alloc, stage, place, a)
        }
        ExprKind::Not(a) => {
            let a = value(alloc, setting, stage, None, a)?;
            inverted(alloc, stage, place, a)
        }
        ExprKind::IsNone(a, positive) => {
            let a = value(alloc, setting, stage, None, a)?;
            none_test(alloc, stage, place, a, *positive)
        }
        ExprKind::Chain(first, links) => run(alloc, setting, stage, place, first, links),
        ExprKind::And(items) => truth(alloc, setting, stage, expr, true, items),
        ExprKind::Or(items) => truth(alloc, setting, stage, expr, false, items),
        ExprKind::Cond { test, yes, no } => {
            cond(alloc, setting, stage, wanted, expr, test, yes, no)
        }
        ExprKind::Int(_)
        | ExprKind::Bool(_)
        | ExprKind::Str(_)
        | ExprKind::Nil
        | ExprKind::Var(_)
        | ExprKind::SelfRef
        | ExprKind::Attr(..) => still(alloc, stage, expr),
    }
}

/// An expression before others: where one of those suspends, its value is settled unless it lasts.
#[cycle(hoist)]
fn kept_value(
    alloc: Global,
    setting: &Setting<'_>,
    stage: &mut Stage,
    wanted: Option<&Ty>,
    expr: &Expr,
    later: bool,
) -> Result<Hoisted, AllocError>
    ensures { IfOk result (λ made. hoisted_at made stage.new ≡ gives.kept_in setting.now later wanted.entry expr.now stage.old) }
{
    if !later || lasts(setting, expr) {
        return value(alloc, setting, stage, wanted, expr);
    }
    let ty = setting.ty_at(alloc, &stage.locals, wanted, expr)?;
    let hoisted = value(alloc, setting, stage, wanted, expr)?;
    settle(alloc, stage, expr.place, ty, hoisted)
}

/// Two expressions, one after another.
#[cycle(hoist)]
fn two(
    alloc: Global,
    setting: &Setting<'_>,
    stage: &mut Stage,
    first: &Expr,
    second: &Expr,
) -> Result<HoistedTwo, AllocError>
    ensures { IfOk result (λ made. two_at made stage.new ≡ gives.two_in setting.now first.now second.now stage.old) }
{
    let later = setting.suspends(second);
    let first = kept_value(alloc, setting, stage, None, first, later)?;
    let second = value(alloc, setting, stage, None, second)?;
    two_of(alloc, stage, first, second)
}

/// Expressions one after another, of these wanted types.
#[cycle(hoist)]
fn each(
    alloc: Global,
    setting: &Setting<'_>,
    stage: &mut Stage,
    wanted: &[Option<Ty>],
    items: &[Expr],
) -> Result<HoistedEach, AllocError>
    ensures { IfOk result (λ made. each_at made stage.new ≡ gives.each_in setting.now wanted.now items.now stage.old) }
{
    let count = up_to_last(setting, items);
    let mut before = Sequence::new(alloc);
    let mut rest = Sequence::new(alloc);
    for (i, item) in items.iter().enumerate() {
        let later = i + 1 < count;
        let made = kept_value(alloc, setting, stage, wanted_at(wanted, i), item, later)?;
        before.append(alloc, made.before)?;
        rest.push(alloc, made.rest)?;
    }
    Ok(HoistedEach { before, rest })
}

/// A receiver and arguments of these wanted types.
#[cycle(hoist)]
fn call_parts(
    alloc: Global,
    setting: &Setting<'_>,
    stage: &mut Stage,
    on: &Expr,
    wanted: &[Option<Ty>],
    args: &Exprs,
) -> Result<HoistedCall, AllocError>
    ensures { IfOk result (λ made. call_at made stage.new ≡ gives.parts_in setting.now on.now wanted.now args.now stage.old) }
{
    let later = setting.any_suspends(args);
    let on = kept_value(alloc, setting, stage, None, on, later)?;
    let args = each(alloc, setting, stage, wanted, args.as_slice())?;
    call_with(alloc, stage, on, args)
}

/// A call, as the expression that it is.
#[cycle(hoist)]
fn call(
    alloc: Global,
    setting: &Setting<'_>,
    stage: &mut Stage,
    wanted: Option<&Ty>,
    expr: &Expr,
    on: &Expr,
    name: PlacedName,
    args: &Exprs,
) -> Result<Hoisted, AllocError>
    ensures { IfOk result (λ made. hoisted_at made stage.new ≡ gives.call_in setting.now wanted.entry expr.now on.now name args.now stage.old) }
{
    let on_ty = setting.ty_at(alloc, &stage.locals, None, on)?;
    let ty = setting.ty_at(alloc, &stage.locals, wanted, expr)?;
    let each = by_params(alloc, setting.method_params(&on_ty, name.name))?;
    let parts = call_parts(alloc, setting, stage, on, each.as_slice(), args)?;
    drop(each);
    let leaves = setting.leaves(on, name.name);
    finish_call(
        alloc, setting, stage, leaves, expr.place, ty, &on_ty, name, parts,
    )
}

/// A function or a creation, as the expression that it is.
#[cycle(hoist)]
fn apply(
    alloc: Global,
    setting: &Setting<'_>,
    stage: &mut Stage,
    wanted: Option<&Ty>,
    expr: &Expr,
    name: Name,
    args: &Exprs,
) -> Result<Hoisted, AllocError>
    ensures { IfOk result (λ made. hoisted_at made stage.new ≡ gives.apply_in setting.now wanted.entry expr.now name args.now stage.old) }
{
    let ty = setting.ty_at(alloc, &stage.locals, wanted, expr)?;
    let wanted = by_function(alloc, setting, name)?;
    let args = each(alloc, setting, stage, wanted.as_slice(), args.as_slice())?;
    drop(wanted);
    finish_apply(alloc, setting, stage, expr.place, ty, name, args)
}

/// A list.
#[cycle(hoist)]
fn list(
    alloc: Global,
    setting: &Setting<'_>,
    stage: &mut Stage,
    wanted: Option<&Ty>,
    place: Place,
    items: &Exprs,
) -> Result<Hoisted, AllocError>
    ensures { IfOk result (λ made. hoisted_at made stage.new ≡ gives.list_in setting.now wanted.entry place items.now stage.old) }
{
    let items = items.as_slice();
    let wanted = by_elements(alloc, setting, &stage.locals, element_wanted(wanted), items)?;
    let items = each(alloc, setting, stage, wanted.as_slice(), items)?;
    drop(wanted);
    Ok(listed(stage, place, items))
}

/// A run of operators.
#[cycle(hoist)]
fn run(
    alloc: Global,
    setting: &Setting<'_>,
    stage: &mut Stage,
    place: Place,
    first: &Expr,
    links: &Links,
) -> Result<Hoisted, AllocError>
    ensures { IfOk result (λ made. hoisted_at made stage.new ≡ gives.run_in setting.now place first.now links.now stage.old) }
{
    if links.is_empty() {
        let first = value(alloc, setting, stage, None, first)?;
        return alone(alloc, stage, place, first);
    }
    let ty = setting.ty_at(alloc, &stage.locals, None, first)?;
    let left = value(alloc, setting, stage, None, first)?;
    let start = run_of(alloc, stage, lasts(setting, first), left);
    let made = linked(alloc, setting, stage, place, &ty, start, links.as_slice())?;
    drop(ty);
    so_far(alloc, stage, place, made)
}

/// A run with these links behind it.
#[cycle(hoist)]
fn linked(
    alloc: Global,
    setting: &Setting<'_>,
    stage: &mut Stage,
    place: Place,
    ty: &Ty,
    start: Run,
    links: &[Link],
) -> Result<Run, AllocError>
    ensures { IfOk result (λ made. run_at made stage.new ≡ gives.linked_in setting.now place ty.now links.now start stage.old) }
{
    let mut made = start;
    for link in links {
        made = link_on(alloc, setting, stage, place, ty, made, link)?;
    }
    Ok(made)
}

/// A run with one link more.
#[cycle(hoist)]
fn link_on(
    alloc: Global,
    setting: &Setting<'_>,
    stage: &mut Stage,
    place: Place,
    ty: &Ty,
    run: Run,
    link: &Link,
) -> Result<Run, AllocError>
    ensures { IfOk result (λ made. run_at made stage.new ≡ gives.link_in setting.now place ty.now link.now run stage.old) }
{
    if !setting.suspends(&link.right) {
        return add_link(alloc, stage, run, link);
    }
    let left = settle_run(alloc, stage, place, ty, run)?;
    let right = value(
        alloc,
        setting,
        stage,
        right_wanted(link.op, ty),
        &link.right,
    )?;
    begin_anew(alloc, stage, left, link, right)
}

/// `and` or `or`, as a value.
#[cycle(hoist)]
fn truth(
    alloc: Global,
    setting: &Setting<'_>,
    stage: &mut Stage,
    expr: &Expr,
    is_and: bool,
    items: &Exprs,
) -> Result<Hoisted, AllocError>
    ensures { IfOk result (λ made. hoisted_at made stage.new ≡ gives.truth_in setting.now expr.now is_and items.now stage.old) }
{
    let place = expr.place;
    let tested = operands(alloc, setting, stage, is_and, items.as_slice())?;
    let tested = junction(is_and, tested);
    let holds = literal_way(alloc, &stage.locals, expr, true, tested.next, place)?;
    let fails = literal_way(alloc, &stage.locals, expr, false, tested.next, place)?;
    choose(alloc, stage, place, Ty::Bool, tested.test, holds, fails)
}

/// A conditional, as the expression that it is.
#[cycle(hoist)]
fn cond(
    alloc: Global,
    setting: &Setting<'_>,
    stage: &mut Stage,
    wanted: Option<&Ty>,
    expr: &Expr,
    decider: &Expr,
    yes: &Expr,
    no: &Expr,
) -> Result<Hoisted, AllocError>
    ensures { IfOk result (λ made. hoisted_at made stage.new ≡ gives.cond_in setting.now wanted.entry expr.now decider.now yes.now no.now stage.old) }
{
    let ty = setting.ty_at(alloc, &stage.locals, wanted, expr)?;
    let tested = test(alloc, setting, stage, decider)?;
    let locals = &stage.locals;
    let holds = way(
        alloc,
        setting,
        locals,
        decider,
        true,
        tested.next,
        wanted,
        yes,
    )?;
    let fails = way(
        alloc, setting, locals, decider, false, holds.next, wanted, no,
    )?;
    choose(alloc, stage, expr.place, ty, tested.test, holds, fails)
}

/// The way of a conditional where its test is so.
#[cycle(hoist)]
fn way(
    alloc: Global,
    setting: &Setting<'_>,
    locals: &Locals,
    decider: &Expr,
    truth: bool,
    next: u32,
    wanted: Option<&Ty>,
    expr: &Expr,
) -> Result<Way, AllocError>
    ensures { IfOk result (λ made. plain_way made ≡ gives.way_in setting.now truth decider.now locals.now next wanted.entry expr.now) }
{
    let mut stage = where_shown(alloc, locals, decider, truth, next)?;
    let start = surely(alloc, &stage.locals)?;
    let hoisted = value(alloc, setting, &mut stage, wanted, expr)?;
    Ok(Way {
        start,
        before: hoisted.before,
        rest: hoisted.rest,
        next: stage.next,
    })
}

/// An expression as a test.
#[cycle(hoist)]
#[tactic(auto, using(py_tree::proofs::Sizes::expr_sizes))]
pub fn test(
    alloc: Global,
    setting: &Setting<'_>,
    stage: &Stage,
    expr: &Expr,
) -> Result<Tested, AllocError>
    ensures { IfOk result (λ made. plain_tested made ≡ (forms_of setting.now expr.now).test (plain_stage stage.now)) }
{
    if !setting.suspends(expr) {
        return by_value(alloc, setting, stage, expr);
    }
    match &expr.kind {
        ExprKind::Not(a) => {
            let tested = test(alloc, setting, stage, a)?;
            not_test(alloc, tested)
        }
        ExprKind::And(items) => {
            let tested = operands(alloc, setting, stage, true, items.as_slice())?;
            Ok(junction(true, tested))
        }
        ExprKind::Or(items) => {
            let tested = operands(alloc, setting, stage, false, items.as_slice())?;
            Ok(junction(false, tested))
        }
        ExprKind::Int(_)
        | ExprKind::Bool(_)
        | ExprKind::Str(_)
        | ExprKind::Nil
        | ExprKind::Var(_)
        | ExprKind::SelfRef
        | ExprKind::Attr(..)
        | ExprKind::Call(..)
        | ExprKind::Apply(..)
        | ExprKind::Index(..)
        | ExprKind::List(_)
        | ExprKind::Neg(_)
        | ExprKind::Pos(_)
        | ExprKind::Chain(..)
        | ExprKind::Compare(..)
        | ExprKind::IsNone(..)
        | ExprKind::Cond { .. } => by_value(alloc, setting, stage, expr),
    }
}

/// An expression as a test by its value.
#[cycle(hoist)]
fn by_value(
    alloc: Global,
    setting: &Setting<'_>,
    stage: &Stage,
    expr: &Expr,
) -> Result<Tested, AllocError>
    ensures { IfOk result (λ made. plain_tested made ≡ hoist.leaf ((forms_of setting.now expr.now).value None (plain_stage stage.now))) }
{
    let mut here = stage.copied(alloc)?;
    let hoisted = value(alloc, setting, &mut here, None, expr)?;
    Ok(leaf(&here, hoisted))
}

/// Operands of `and`, or of `or`.
#[cycle(hoist)]
fn operands(
    alloc: Global,
    setting: &Setting<'_>,
    stage: &Stage,
    truth: bool,
    items: &[Expr],
) -> Result<TestedEach, AllocError>
    ensures { IfOk result (λ made. plain_tested_each made ≡ gives.operands_in setting.now truth items.now stage.now) }
{
    let mut here = stage.copied(alloc)?;
    let mut made = Sequence::new(alloc);
    for item in items {
        made.push(alloc, operand(alloc, setting, &mut here, truth, item)?)?;
    }
    Ok(TestedEach {
        operands: made,
        next: here.next,
    })
}

/// An operand, behind which the stage is where it doesn't decide.
#[cycle(hoist)]
fn operand(
    alloc: Global,
    setting: &Setting<'_>,
    stage: &mut Stage,
    truth: bool,
    expr: &Expr,
) -> Result<Operand, AllocError>
    ensures operand { IfOk result (λ made. plain_operand made ≡ gives.operand_in setting.now truth expr.now stage.old) }
    ensures behind { OnOk result (plain_stage stage.new ≡ gives.behind_in setting.now truth expr.now stage.old) }
{
    let tested = test(alloc, setting, stage, expr)?;
    let behind = where_shown(alloc, &stage.locals, expr, truth, tested.next)?;
    let rest = surely(alloc, &behind.locals)?;
    *stage = behind;
    Ok(Operand {
        test: tested.test,
        rest,
    })
}
