//! Flat code of statements that hold no others.

ghost use Rattle.std.specs.Prelude.{◌≡◌, ◌∷◌, ◌++◌, [], IfOk};
ghost use Rattle.py_tree.specs.PlainExpressions.{plain_expr};
ghost use Rattle.py_tree.specs.PlainStatements.{plain_option, plain_stmt};
ghost use Rattle.entity_types.specs.Views.{plain_locals};
ghost use Rattle.flat_tree.specs.PlainFlat.{plain_flat_stmt, plain_flat_stmts, plain_flat_arm, FMark, FCode};
ghost use Rattle.hoisting.specs.HoistStatements as spec;
ghost use Rattle.hoisting.specs.Views.{hoisted_at};
ghost use Rattle.expression_hoister.specs.ExpressionViews.{plain_tested};
ghost use Rattle.method_hoister.specs.SmallCode as code;
ghost use Rattle.method_hoister.specs.StatementViews as gives;
ghost use Rattle.method_hoister.specs.StatementViews.{maybe_at, plain_flattened};

use crate::targets::{read_of, stored, target_read, target_ty};
use entity_types::types::right_wanted;
use expression_hoister::choices::{Tested, if_stmt};
use expression_hoister::{test, value};
use flat_tree::{FlatArm, FlatStmt, FlatStmts};
use flow_types::Locals;
use hoisting::parts::{Hoisted, lasts, settle};
use hoisting::{Setting, Stage, surely, where_shown};
use py_tree::nodes::{chain, link_of, nil_of};
use py_tree::{BinOp, Expr, Place, Stmt, Target, Ty};
use sf_list::{Sequence, TryClone};
use std::alloc::{AllocError, Global};

/// Flat code, and the number of the next temporary.
#[derive(Drop)]
pub struct Flattened {
    pub code: FlatStmts,
    pub next: u32,
}

/// What is hoisted where there may be no expression.
#[derive(Drop)]
pub struct HoistedMaybe {
    pub before: FlatStmts,
    pub rest: Option<Expr>,
}

/// A statement's step, and what runs.
#[tactic(auto, using(crate::proofs::CodeLaws::marked_laws))]
pub fn stepped(alloc: Global, before: FlatStmts, next: u32) -> Result<Flattened, AllocError>
    ensures { IfOk result (λ made. plain_flattened made ≡ record { code = FMark ∷ plain_flat_stmts before; next = next }) }
{
    let mut code = Sequence::new(alloc);
    code.push(alloc, FlatStmt::Mark)?;
    code.append(alloc, before)?;
    Ok(Flattened { code, next })
}

/// A statement's step, what runs before, and a statement over what is left.
#[tactic(auto, using(crate::proofs::CodeLaws::marked_laws))]
pub fn marked(
    alloc: Global,
    before: FlatStmts,
    last: FlatStmt,
    next: u32,
) -> Result<Flattened, AllocError>
    ensures { IfOk result (λ made. plain_flattened made ≡ record { code = FMark ∷ plain_flat_stmts before ++ plain_flat_stmt last ∷ []; next = next }) }
{
    let mut code = before;
    code.push(alloc, last)?;
    stepped(alloc, code, next)
}

/// A statement that stays as it is.
#[tactic(auto, using(flat_tree::proofs::FlatViews::flat_views))]
pub fn code_of(alloc: Global, stmt: &Stmt, next: u32) -> Result<Flattened, AllocError>
    ensures { IfOk result (λ made. plain_flattened made ≡ record { code = FCode (plain_stmt stmt.now) ∷ []; next = next }) }
{
    let copy = stmt.try_clone(alloc)?;
    let mut code = Sequence::new(alloc);
    code.push(alloc, FlatStmt::Code(copy))?;
    Ok(Flattened { code, next })
}

/// The value of an expression, in a temporary unless it lasts.
pub fn settled_value(
    alloc: Global,
    setting: &Setting<'_>,
    stage: &mut Stage,
    place: Place,
    expr: &Expr,
) -> Result<Hoisted, AllocError>
    ensures { IfOk result (λ made. hoisted_at made stage.new ≡ gives.settled_in setting.now place expr.now stage.old) }
{
    if lasts(setting, expr) {
        return value(alloc, setting, stage, None, expr);
    }
    let ty = setting.ty_at(alloc, &stage.locals, None, expr)?;
    let hoisted = value(alloc, setting, stage, None, expr)?;
    settle(alloc, stage, place, ty, hoisted)
}

/// An expression as a statement.
pub fn evaluated(
    alloc: Global,
    setting: &Setting<'_>,
    stage: &mut Stage,
    place: Place,
    expr: &Expr,
) -> Result<Flattened, AllocError>
    ensures { IfOk result (λ made. plain_flattened made ≡ gives.evaluated_in setting.now place expr.now stage.old) }
{
    let hoisted = settled_value(alloc, setting, stage, place, expr)?;
    stepped(alloc, hoisted.before, stage.next)
}

/// An expression, where there is one.
pub fn optional(
    alloc: Global,
    setting: &Setting<'_>,
    stage: &mut Stage,
    wanted: Option<&Ty>,
    expr: &Option<Expr>,
) -> Result<HoistedMaybe, AllocError>
    ensures { IfOk result (λ made. maybe_at made stage.new ≡ gives.optional_in setting.now wanted.entry expr.now stage.old) }
{
    match expr {
        None => Ok(HoistedMaybe {
            before: Sequence::new(alloc),
            rest: None,
        }),
        Some(expr) => {
            let hoisted = value(alloc, setting, stage, wanted, expr)?;
            Ok(HoistedMaybe {
                before: hoisted.before,
                rest: Some(hoisted.rest),
            })
        }
    }
}

/// A value, or None where there is none.
fn value_or_nil(place: Place, expr: Option<Expr>) -> Expr
    ensures { plain_expr result ≡ spec.value_or_nil place (plain_option plain_expr expr) }
{
    match expr {
        None => nil_of(place),
        Some(expr) => expr,
    }
}

/// `return`.
#[tactic(auto, using(flat_tree::proofs::FlatViews::flat_views))]
pub fn returned(
    alloc: Global,
    setting: &Setting<'_>,
    stage: &mut Stage,
    place: Place,
    expr: &Option<Expr>,
) -> Result<Flattened, AllocError>
    ensures { IfOk result (λ made. plain_flattened made ≡ gives.returned_in setting.now place expr.now stage.old) }
{
    let ty = setting.result_ty(alloc)?;
    let hoisted = optional(alloc, setting, stage, Some(&ty), expr)?;
    drop(ty);
    let last = FlatStmt::Give(value_or_nil(place, hoisted.rest));
    marked(alloc, hoisted.before, last, stage.next)
}

/// `raise`.
#[tactic(auto, using(flat_tree::proofs::FlatViews::flat_views))]
pub fn raised(
    alloc: Global,
    setting: &Setting<'_>,
    stage: &mut Stage,
    kind: u8,
    expr: &Option<Expr>,
) -> Result<Flattened, AllocError>
    ensures { IfOk result (λ made. plain_flattened made ≡ gives.raised_in setting.now kind expr.now stage.old) }
{
    let hoisted = optional(alloc, setting, stage, None, expr)?;
    let last = FlatStmt::Fail(kind, hoisted.rest);
    marked(alloc, hoisted.before, last, stage.next)
}

/// What fails where an `assert` doesn't hold.
#[tactic(auto, using(hoisting::proofs::PartLaws::pushed_fail))]
fn failure_of(
    alloc: Global,
    setting: &Setting<'_>,
    stage: &mut Stage,
    expr: &Option<Expr>,
) -> Result<Flattened, AllocError>
    ensures { IfOk result (λ made. plain_flattened made ≡ gives.failure_in setting.now expr.now stage.old) }
{
    let hoisted = optional(alloc, setting, stage, None, expr)?;
    let mut code = hoisted.before;
    code.push(alloc, FlatStmt::Fail(3, hoisted.rest))?;
    Ok(Flattened {
        code,
        next: stage.next,
    })
}

/// The arm of an `assert`, in which nothing runs.
fn assert_arm(
    alloc: Global,
    locals: &Locals,
    decider: &Expr,
    tested: Tested,
) -> Result<FlatArm, AllocError>
    ensures { IfOk result (λ made. plain_flat_arm made ≡ code.assert_arm (plain_locals locals.now) (plain_expr decider.now) (plain_tested tested)) }
{
    let holds = where_shown(alloc, locals, decider, true, tested.next)?;
    let start = surely(alloc, &holds.locals)?;
    drop(holds);
    let rest = surely(alloc, locals)?;
    Ok(FlatArm {
        test: tested.test,
        start,
        body: Sequence::new(alloc),
        rest,
    })
}

/// `assert`.
pub fn asserted(
    alloc: Global,
    setting: &Setting<'_>,
    stage: &mut Stage,
    decider: &Expr,
    message: &Option<Expr>,
) -> Result<Flattened, AllocError>
    ensures { IfOk result (λ made. plain_flattened made ≡ gives.asserted_in setting.now decider.now message.now stage.old) }
{
    let tested = test(alloc, setting, stage, decider)?;
    let holds = where_shown(alloc, &stage.locals, decider, true, tested.next)?;
    let behind = surely(alloc, &holds.locals)?;
    drop(holds);
    stage.next = tested.next;
    let arm = assert_arm(alloc, &stage.locals, decider, tested)?;
    let failure = failure_of(alloc, setting, stage, message)?;
    let choice = if_stmt(alloc, arm, failure.code, behind)?;
    marked(alloc, Sequence::new(alloc), choice, failure.next)
}

/// `x = e`.
pub fn assigned(
    alloc: Global,
    setting: &Setting<'_>,
    stage: &mut Stage,
    target: Target,
    expr: &Expr,
) -> Result<Flattened, AllocError>
    ensures { IfOk result (λ made. plain_flattened made ≡ gives.assignment_in setting.now target expr.now stage.old) }
{
    let wanted = target_ty(alloc, setting, &stage.locals, target)?;
    let hoisted = value(alloc, setting, stage, wanted.as_ref(), expr)?;
    drop(wanted);
    marked(
        alloc,
        hoisted.before,
        stored(target, hoisted.rest),
        stage.next,
    )
}

/// The target of `x op= e`, read before e.
fn held_target(
    alloc: Global,
    stage: &mut Stage,
    place: Place,
    target: Target,
    ty: &Ty,
) -> Result<Hoisted, AllocError>
    ensures { IfOk result (λ made. hoisted_at made stage.new ≡ gives.held_in place target ty.now stage.old) }
{
    let ty = ty.try_clone(alloc)?;
    let read = Hoisted {
        before: Sequence::new(alloc),
        rest: read_of(alloc, place, target)?,
    };
    settle(alloc, stage, place, ty, read)
}

/// One operator over what is left of two expressions.
fn combined(
    alloc: Global,
    stage: &Stage,
    place: Place,
    op: BinOp,
    op_place: Place,
    left: Hoisted,
    right: Hoisted,
) -> Result<Hoisted, AllocError>
    ensures { IfOk result (λ made. hoisted_at made stage.now ≡ gives.combined_at place op op_place left right stage.now) }
{
    let mut before = left.before;
    before.append(alloc, right.before)?;
    let mut links = Sequence::new(alloc);
    links.push(alloc, link_of(op, op_place, right.rest))?;
    let rest = chain(alloc, place, left.rest, links)?;
    Ok(Hoisted { before, rest })
}

/// What is assigned by `x op= e`.
fn combination(
    alloc: Global,
    setting: &Setting<'_>,
    stage: &mut Stage,
    place: Place,
    target: Target,
    op: BinOp,
    op_place: Place,
    expr: &Expr,
) -> Result<Hoisted, AllocError>
    ensures { IfOk result (λ made. hoisted_at made stage.new ≡ gives.combination_in setting.now place target op op_place expr.now stage.old) }
{
    let read = target_read(alloc, place, target)?;
    let ty = setting.ty_at(alloc, &stage.locals, None, &read)?;
    drop(read);
    let left = held_target(alloc, stage, place, target, &ty)?;
    let right = value(alloc, setting, stage, right_wanted(op, &ty), expr)?;
    drop(ty);
    combined(alloc, stage, place, op, op_place, left, right)
}

/// `x op= e`.
pub fn augmented(
    alloc: Global,
    setting: &Setting<'_>,
    stage: &mut Stage,
    place: Place,
    target: Target,
    op: BinOp,
    op_place: Place,
    expr: &Expr,
) -> Result<Flattened, AllocError>
    ensures { IfOk result (λ made. plain_flattened made ≡ gives.augmented_in setting.now place target op op_place expr.now stage.old) }
{
    let hoisted = combination(alloc, setting, stage, place, target, op, op_place, expr)?;
    marked(
        alloc,
        hoisted.before,
        stored(target, hoisted.rest),
        stage.next,
    )
}
