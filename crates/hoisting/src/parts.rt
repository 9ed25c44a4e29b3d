//! The parts that expressions are hoisted by.

ghost use Rattle.std.specs.Prelude.{◌≡◌, ◌∷◌, ◌++◌, [], true, IfOk};
ghost use Rattle.py_tree.specs.PlainTypes.{plain_ty};
ghost use Rattle.py_tree.specs.PlainExpressions.{plain_expr, plain_exprs, exprs_of};
ghost use Rattle.flat_tree.specs.PlainFlat.{FSet, plain_flat_stmts};
ghost use Rattle.hoisting.specs.HoistExpressions as spec;
ghost use Rattle.hoisting.specs.Views.{plain_stage, context_of, leaves_of, hoisted_at, each_at, call_at};

use crate::setting::Setting;
use crate::stages::{Stage, surely};
use flat_tree::{FlatStmt, FlatStmts};
use py_tree::nodes::var_of;
use py_tree::{Expr, ExprKind, Exprs, Name, Place, PlacedName, Ty, function_of};
use sf_list::{Sequence, TryClone};
use std::alloc::{AllocError, Global};

/// Statements that run before, and what is left to evaluate.
#[derive(Drop)]
pub struct Hoisted {
    pub before: FlatStmts,
    pub rest: Expr,
}

/// The same of expressions in a list.
#[derive(Drop)]
pub struct HoistedEach {
    pub before: FlatStmts,
    pub rest: Exprs,
}

/// The same of a receiver and arguments.
#[derive(Drop)]
pub struct HoistedCall {
    pub before: FlatStmts,
    pub on: Expr,
    pub args: Exprs,
}

/// The same of two expressions.
#[derive(Drop)]
pub struct HoistedTwo {
    pub before: FlatStmts,
    pub first: Expr,
    pub second: Expr,
}

/// Whether an expression gives the same wherever it is evaluated.
#[tactic(auto, using(py_tree::proofs::Views::expr_views))]
fn is_constant(expr: &Expr) -> bool
    ensures { result ≡ spec.is_constant (plain_expr expr.now) }
{
    match &expr.kind {
        ExprKind::Int(_) | ExprKind::Bool(_) | ExprKind::Nil | ExprKind::SelfRef => true,
        ExprKind::Str(_)
        | ExprKind::Var(_)
        | ExprKind::Attr(..)
        | ExprKind::Call(..)
        | ExprKind::Apply(..)
        | ExprKind::Index(..)
        | ExprKind::List(_)
        | ExprKind::Neg(_)
        | ExprKind::Pos(_)
        | ExprKind::Not(_)
        | ExprKind::Chain(..)
        | ExprKind::And(_)
        | ExprKind::Or(_)
        | ExprKind::Compare(..)
        | ExprKind::IsNone(..)
        | ExprKind::Cond { .. } => false,
    }
}

/// Whether the value of an expression goes into a temporary in any case.
#[tactic(auto, using(py_tree::proofs::Views::expr_views), unfolding(call_graph::specs::SuspendingCode::expr_suspends))]
fn is_taken(setting: &Setting<'_>, expr: &Expr) -> bool
    ensures { result ≡ spec.is_taken (leaves_of setting.now) (plain_expr expr.now) }
{
    match &expr.kind {
        ExprKind::Call(on, name, _) => setting.leaves(on, name.name),
        ExprKind::Apply(name, _) => function_of(*name).is_none(),
        ExprKind::And(items) | ExprKind::Or(items) => setting.any_suspends(items),
        ExprKind::Cond { test, yes, no } => {
            setting.suspends(test) || setting.suspends(yes) || setting.suspends(no)
        }
        ExprKind::Int(_)
        | ExprKind::Bool(_)
        | ExprKind::Str(_)
        | ExprKind::Nil
        | ExprKind::Var(_)
        | ExprKind::SelfRef
        | ExprKind::Attr(..)
        | ExprKind::Index(..)
        | ExprKind::List(_)
        | ExprKind::Neg(_)
        | ExprKind::Pos(_)
        | ExprKind::Not(_)
        | ExprKind::Chain(..)
        | ExprKind::Compare(..)
        | ExprKind::IsNone(..) => false,
    }
}

/// Whether what is left of an expression gives the same from then on.
pub fn lasts(setting: &Setting<'_>, expr: &Expr) -> bool
    ensures { result ≡ spec.lasts (leaves_of setting.now) (plain_expr expr.now) }
{
    is_constant(expr) || is_taken(setting, expr)
}

/// A copy of expressions.
#[tactic(auto, using(flat_tree::proofs::CopyLaws::copied_exprs))]
pub fn copy_exprs(alloc: Global, exprs: &Exprs) -> Result<Exprs, AllocError>
    ensures { IfOk result (λ made. plain_exprs made ≡ plain_exprs exprs.now) }
{
    exprs.try_clone(alloc)
}

/// What stays as it is.
pub fn still(alloc: Global, stage: &Stage, expr: &Expr) -> Result<Hoisted, AllocError>
    ensures { IfOk result (λ made. hoisted_at made stage.now ≡ spec.still (plain_expr expr.now) (plain_stage stage.now)) }
{
    Ok(Hoisted {
        before: Sequence::new(alloc),
        rest: expr.try_clone(alloc)?,
    })
}

/// Expressions that stay as they are.
pub fn still_each(alloc: Global, stage: &Stage, exprs: &Exprs) -> Result<HoistedEach, AllocError>
    ensures { IfOk result (λ made. each_at made stage.now ≡ spec.still (exprs_of (plain_exprs exprs.now)) (plain_stage stage.now)) }
{
    Ok(HoistedEach {
        before: Sequence::new(alloc),
        rest: copy_exprs(alloc, exprs)?,
    })
}

/// Statements, and one behind them that puts a value into a temporary.
#[tactic(auto, using(crate::proofs::PartLaws::pushed_set))]
pub fn with_set(
    alloc: Global,
    before: FlatStmts,
    name: Name,
    value: Expr,
) -> Result<FlatStmts, AllocError>
    ensures { IfOk result (λ made. plain_flat_stmts made ≡ plain_flat_stmts before ++ FSet name.0 (plain_expr value) ∷ []) }
{
    let mut made = before;
    made.push(alloc, FlatStmt::Set(name, value))?;
    Ok(made)
}

/// What is left is evaluated now, into the next temporary, which has this type.
pub fn settle(
    alloc: Global,
    stage: &mut Stage,
    place: Place,
    ty: Ty,
    hoisted: Hoisted,
) -> Result<Hoisted, AllocError>
    ensures { IfOk result (λ made. hoisted_at made stage.new ≡ spec.settled place (plain_ty ty) (hoisted_at hoisted stage.old)) }
{
    let name = stage.add_temporary(alloc, ty)?;
    let before = with_set(alloc, hoisted.before, name, hoisted.rest)?;
    Ok(Hoisted {
        before,
        rest: var_of(place, name),
    })
}

/// A call on what is left of its parts, which waits for its result in a temporary of this type.
pub fn wait_call(
    alloc: Global,
    setting: &Setting<'_>,
    stage: &mut Stage,
    place: Place,
    ty: Ty,
    on_ty: &Ty,
    name: PlacedName,
    parts: HoistedCall,
) -> Result<Hoisted, AllocError>
    ensures { IfOk result (λ made. hoisted_at made stage.new ≡ spec.call_of (context_of setting.now) true place (plain_ty ty)
        (plain_ty on_ty.now) name.name.0 name.place (call_at parts stage.old)) }
{
    let callee = setting.callee(on_ty, name.name)?;
    let into = stage.add_temporary(alloc, ty)?;
    let after = surely(alloc, &stage.locals)?;
    let mut before = parts.before;
    let call = FlatStmt::Call {
        on: parts.on,
        callee,
        args: parts.args,
        into,
        after,
    };
    before.push(alloc, call)?;
    Ok(Hoisted {
        before,
        rest: var_of(place, into),
    })
}

/// A creation on what is left of its arguments, which waits for its result in a temporary of this type.
pub fn wait_creation(
    alloc: Global,
    setting: &Setting<'_>,
    stage: &mut Stage,
    place: Place,
    ty: Ty,
    name: Name,
    args: HoistedEach,
) -> Result<Hoisted, AllocError>
    ensures { IfOk result (λ one. hoisted_at one stage.new ≡ spec.apply_of (context_of setting.now) true place (plain_ty ty) name.0 (each_at args stage.old)) }
{
    let class = setting.created(name)?;
    let into = stage.add_temporary(alloc, ty)?;
    let after = surely(alloc, &stage.locals)?;
    let mut before = args.before;
    let creation = FlatStmt::Make {
        class,
        args: args.rest,
        into,
        after,
    };
    before.push(alloc, creation)?;
    Ok(Hoisted {
        before,
        rest: var_of(place, into),
    })
}
