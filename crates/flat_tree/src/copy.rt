//! Copies of flat methods. Each has the plain tree of its original.

ghost use Rattle.std.specs.Prelude.{◌≡◌, IfOk};
ghost use Rattle.py_tree.specs.PlainExpressions.{plain_expr, plain_exprs, exprs_of};
ghost use Rattle.py_tree.specs.PlainStatements.{plain_option};
ghost use Rattle.block_code.specs.PlainVars.{plain_vars};
ghost use Rattle.flat_tree.specs.PlainFlat.{FCall, FMake, plain_flat_stmt, plain_flat_stmts, plain_flat_arm, plain_flat_arms, plain_flat_clause, plain_flat_clauses, plain_flat_test, plain_operand, plain_operands};

use crate::tree::{
    Callee, Created, Flat, FlatArm, FlatArms, FlatClause, FlatClauses, FlatStmt, FlatStmts,
    FlatTest, Operand, Operands,
};
use block_code::VarTypes;
use py_tree::{Expr, Exprs, Kinds, Name};
use sf_list::{Sequence, TryClone};
use std::alloc::{AllocError, Global};

#[tactic(auto, using(crate::proofs::CopyLaws::copied_vars))]
fn copy_vars(alloc: Global, vars: &VarTypes) -> Result<VarTypes, AllocError>
    ensures { IfOk result (λ made. plain_vars made ≡ plain_vars vars.now) }
{
    vars.try_clone(alloc)
}

fn copy_maybe_vars(alloc: Global, vars: &Option<VarTypes>) -> Result<Option<VarTypes>, AllocError>
    ensures { IfOk result (λ made. plain_option plain_vars made ≡ plain_option plain_vars vars.now) }
{
    match vars {
        None => Ok(None),
        Some(vars) => Ok(Some(copy_vars(alloc, vars)?)),
    }
}

fn copy_maybe_expr(alloc: Global, expr: &Option<Expr>) -> Result<Option<Expr>, AllocError>
    ensures { IfOk result (λ made. plain_option plain_expr made ≡ plain_option plain_expr expr.now) }
{
    match expr {
        None => Ok(None),
        Some(expr) => Ok(Some(expr.try_clone(alloc)?)),
    }
}

#[tactic(auto, using(crate::proofs::CopyLaws::copied_exprs))]
fn copy_exprs(alloc: Global, exprs: &Exprs) -> Result<Exprs, AllocError>
    ensures { IfOk result (λ made. plain_exprs made ≡ plain_exprs exprs.now) }
{
    exprs.try_clone(alloc)
}

fn copy_kinds(alloc: Global, kinds: &Kinds) -> Result<Kinds, AllocError>
    ensures { IfOk result (λ made. made ≡ kinds.now) }
{
    let mut made = Sequence::new(alloc);
    made.extend_from_slice(alloc, kinds.as_slice())?;
    Ok(made)
}

#[tactic(auto, using(crate::proofs::FlatViews::flat_views))]
fn copy_call(
    alloc: Global,
    on: &Expr,
    callee: Callee,
    args: &Exprs,
    into: Name,
    after: &VarTypes,
) -> Result<FlatStmt, AllocError>
    ensures { IfOk result (λ made. plain_flat_stmt made ≡ FCall (plain_expr on.now) callee (exprs_of (plain_exprs args.now)) into.0 (plain_vars after.now)) }
{
    let on = on.try_clone(alloc)?;
    let args = copy_exprs(alloc, args)?;
    let after = copy_vars(alloc, after)?;
    Ok(FlatStmt::Call {
        on,
        callee,
        args,
        into,
        after,
    })
}

#[tactic(auto, using(crate::proofs::FlatViews::flat_views))]
fn copy_make(
    alloc: Global,
    class: Created,
    args: &Exprs,
    into: Name,
    after: &VarTypes,
) -> Result<FlatStmt, AllocError>
    ensures { IfOk result (λ made. plain_flat_stmt made ≡ FMake class (exprs_of (plain_exprs args.now)) into.0 (plain_vars after.now)) }
{
    let args = copy_exprs(alloc, args)?;
    let after = copy_vars(alloc, after)?;
    Ok(FlatStmt::Make {
        class,
        args,
        into,
        after,
    })
}

#[cycle(copy_flat)]
#[tactic(auto, using(crate::proofs::FlatViews::flat_views))]
fn copy_stmt(alloc: Global, stmt: &FlatStmt) -> Result<FlatStmt, AllocError>
    ensures { IfOk result (λ made. plain_flat_stmt made ≡ plain_flat_stmt stmt.now) }
{
    match stmt {
        FlatStmt::Mark => Ok(FlatStmt::Mark),
        FlatStmt::Set(name, value) => Ok(FlatStmt::Set(*name, value.try_clone(alloc)?)),
        FlatStmt::Put(name, value) => Ok(FlatStmt::Put(*name, value.try_clone(alloc)?)),
        FlatStmt::Give(value) => Ok(FlatStmt::Give(value.try_clone(alloc)?)),
        FlatStmt::Fail(kind, message) => {
            Ok(FlatStmt::Fail(*kind, copy_maybe_expr(alloc, message)?))
        }
        FlatStmt::Code(code) => Ok(FlatStmt::Code(code.try_clone(alloc)?)),
        FlatStmt::Break => Ok(FlatStmt::Break),
        FlatStmt::Continue => Ok(FlatStmt::Continue),
        FlatStmt::Call {
            on,
            callee,
            args,
            into,
            after,
        } => copy_call(alloc, on, *callee, args, *into, after),
        FlatStmt::Make {
            class,
            args,
            into,
            after,
        } => copy_make(alloc, *class, args, *into, after),
        FlatStmt::If { arms, other, after } => {
            let arms = copy_arms(alloc, arms)?;
            let other = copy_stmts(alloc, other)?;
            let after = copy_maybe_vars(alloc, after)?;
            Ok(FlatStmt::If { arms, other, after })
        }
        FlatStmt::While {
            head,
            test,
            start,
            body,
            after,
        } => {
            let head = copy_vars(alloc, head)?;
            let test = copy_test(alloc, test)?;
            let start = copy_vars(alloc, start)?;
            let body = copy_stmts(alloc, body)?;
            let after = copy_maybe_vars(alloc, after)?;
            Ok(FlatStmt::While {
                head,
                test,
                start,
                body,
                after,
            })
        }
        FlatStmt::Try {
            start,
            body,
            clauses,
            after,
        } => {
            let begin = copy_vars(alloc, start)?;
            let body = copy_stmts(alloc, body)?;
            let clauses = copy_clauses(alloc, clauses)?;
            let after = copy_maybe_vars(alloc, after)?;
            Ok(FlatStmt::Try {
                start: begin,
                body,
                clauses,
                after,
            })
        }
    }
}

#[cycle(copy_flat)]
fn copy_stmts(alloc: Global, stmts: &FlatStmts) -> Result<FlatStmts, AllocError>
    ensures { IfOk result (λ made. plain_flat_stmts made ≡ plain_flat_stmts stmts.now) }
{
    let mut made = Sequence::new(alloc);
    for stmt in stmts.as_slice() {
        made.push(alloc, copy_stmt(alloc, stmt)?)?;
    }
    Ok(made)
}

#[cycle(copy_flat)]
fn copy_arm(alloc: Global, arm: &FlatArm) -> Result<FlatArm, AllocError>
    ensures { IfOk result (λ made. plain_flat_arm made ≡ plain_flat_arm arm.now) }
{
    let test = copy_test(alloc, &arm.test)?;
    let start = copy_vars(alloc, &arm.start)?;
    let body = copy_stmts(alloc, &arm.body)?;
    let rest = copy_vars(alloc, &arm.rest)?;
    Ok(FlatArm {
        test,
        start,
        body,
        rest,
    })
}

#[cycle(copy_flat)]
fn copy_arms(alloc: Global, arms: &FlatArms) -> Result<FlatArms, AllocError>
    ensures { IfOk result (λ made. plain_flat_arms made ≡ plain_flat_arms arms.now) }
{
    let mut made = Sequence::new(alloc);
    for arm in arms.as_slice() {
        made.push(alloc, copy_arm(alloc, arm)?)?;
    }
    Ok(made)
}

#[cycle(copy_flat)]
fn copy_clause(alloc: Global, clause: &FlatClause) -> Result<FlatClause, AllocError>
    ensures { IfOk result (λ made. plain_flat_clause made ≡ plain_flat_clause clause.now) }
{
    let kinds = copy_kinds(alloc, &clause.kinds)?;
    let start = copy_vars(alloc, &clause.start)?;
    let body = copy_stmts(alloc, &clause.body)?;
    Ok(FlatClause { kinds, start, body })
}

#[cycle(copy_flat)]
fn copy_clauses(alloc: Global, clauses: &FlatClauses) -> Result<FlatClauses, AllocError>
    ensures { IfOk result (λ made. plain_flat_clauses made ≡ plain_flat_clauses clauses.now) }
{
    let mut made = Sequence::new(alloc);
    for clause in clauses.as_slice() {
        made.push(alloc, copy_clause(alloc, clause)?)?;
    }
    Ok(made)
}

#[cycle(copy_flat)]
#[tactic(auto, using(crate::proofs::FlatViews::flat_views))]
fn copy_test(alloc: Global, test: &FlatTest) -> Result<FlatTest, AllocError>
    ensures { IfOk result (λ made. plain_flat_test made ≡ plain_flat_test test.now) }
{
    match test {
        FlatTest::Leaf(before, value) => {
            let before = copy_stmts(alloc, before)?;
            Ok(FlatTest::Leaf(before, value.try_clone(alloc)?))
        }
        FlatTest::Not(test) => {
            let test = copy_test(alloc, test)?;
            Ok(FlatTest::Not(Box::new(alloc, test)?))
        }
        FlatTest::And(operands) => Ok(FlatTest::And(copy_operands(alloc, operands)?)),
        FlatTest::Or(operands) => Ok(FlatTest::Or(copy_operands(alloc, operands)?)),
    }
}

#[cycle(copy_flat)]
fn copy_operand(alloc: Global, operand: &Operand) -> Result<Operand, AllocError>
    ensures { IfOk result (λ made. plain_operand made ≡ plain_operand operand.now) }
{
    let test = copy_test(alloc, &operand.test)?;
    let rest = copy_vars(alloc, &operand.rest)?;
    Ok(Operand { test, rest })
}

#[cycle(copy_flat)]
fn copy_operands(alloc: Global, operands: &Operands) -> Result<Operands, AllocError>
    ensures { IfOk result (λ made. plain_operands made ≡ plain_operands operands.now) }
{
    let mut made = Sequence::new(alloc);
    for operand in operands.as_slice() {
        made.push(alloc, copy_operand(alloc, operand)?)?;
    }
    Ok(made)
}

impl TryClone for FlatStmt {
    ghost use Rattle.std.specs.Prelude.{◌≡◌};
    ghost use Rattle.flat_tree.specs.PlainFlat.{plain_flat_stmt};

    ghost is_copy = { λ old made. plain_flat_stmt made ≡ plain_flat_stmt old };

    fn try_clone(&self, alloc: Global) -> Result<FlatStmt, AllocError> {
        copy_stmt(alloc, self)
    }
}

impl TryClone for Flat {
    ghost use Rattle.std.specs.Prelude.{◌≡◌};
    ghost use Rattle.flat_tree.specs.PlainFlat.{plain_flat};

    ghost is_copy = { λ old made. plain_flat made ≡ plain_flat old };

    fn try_clone(&self, alloc: Global) -> Result<Flat, AllocError> {
        let params = copy_vars(alloc, &self.params)?;
        let body = copy_stmts(alloc, &self.body)?;
        Ok(Flat { params, body })
    }
}
