//! Flat code, told as a text. A temporary is told by its number behind those of the names.

use block_code::VarTypes;
use flat_tree::{FlatArm, FlatClause, FlatStmt, FlatTest, Operand};
use itoa::Buffer;
use py_tree::{BinOp, Cmp, Expr, ExprKind, Link, Name, Names};
use std::alloc::AllocError;

fn tell_number(told: &mut String, number: u32) -> Result<(), AllocError> {
    let mut digits = Buffer::new();
    told.push_str(digits.format(number))
}

fn tell_name(told: &mut String, names: &Names, name: Name) -> Result<(), AllocError> {
    let count = names.count();
    if name.0 < count {
        return told.push_str(names.text(name));
    }
    told.push('t')?;
    tell_number(told, name.0 - count)
}

fn tell_int(told: &mut String, number: i128) -> Result<(), AllocError> {
    let mut digits = Buffer::new();
    told.push_str(digits.format(number))
}

fn operator_text(op: BinOp) -> &'static str {
    match op {
        BinOp::Add => " + ",
        BinOp::Sub => " - ",
        BinOp::Mul => " * ",
        BinOp::FloorDiv => " // ",
        BinOp::Mod => " % ",
    }
}

fn comparison_text(op: Cmp) -> &'static str {
    match op {
        Cmp::Eq => " == ",
        Cmp::Ne => " != ",
        Cmp::Lt => " < ",
        Cmp::Gt => " > ",
        Cmp::Le => " <= ",
        Cmp::Ge => " >= ",
    }
}

/// A kind without parts.
fn tell_small(told: &mut String, names: &Names, kind: &ExprKind) -> Result<(), AllocError> {
    match kind {
        ExprKind::Int(number) => tell_int(told, *number),
        ExprKind::Bool(true) => told.push_str("True"),
        ExprKind::Bool(false) => told.push_str("False"),
        ExprKind::Nil => told.push_str("None"),
        ExprKind::SelfRef => told.push_str("self"),
        ExprKind::Str(name) | ExprKind::Var(name) => tell_name(told, names, *name),
        ExprKind::Attr(..)
        | ExprKind::Call(..)
        | ExprKind::Apply(..)
        | ExprKind::Index(..)
        | ExprKind::List(_)
        | ExprKind::Neg(_)
        | ExprKind::Pos(_)
        | ExprKind::Not(_)
        | ExprKind::Chain(..)
        | ExprKind::And(_)
        | ExprKind::Or(_)
        | ExprKind::Compare(..)
        | ExprKind::IsNone(..)
        | ExprKind::Cond { .. } => Ok(()),
    }
}

#[cycle(tell_expr)]
fn tell_each(
    told: &mut String,
    names: &Names,
    between: &str,
    exprs: &[Expr],
) -> Result<(), AllocError> {
    for (i, expr) in exprs.iter().enumerate() {
        if i > 0 {
            told.push_str(between)?;
        }
        tell_expr(told, names, expr)?;
    }
    Ok(())
}

#[cycle(tell_expr)]
fn tell_links(told: &mut String, names: &Names, links: &[Link]) -> Result<(), AllocError> {
    for link in links {
        told.push_str(operator_text(link.op))?;
        tell_expr(told, names, &link.right)?;
    }
    Ok(())
}

/// An expression; what has parts stands in parentheses.
#[cycle(tell_expr)]
pub fn tell_expr(told: &mut String, names: &Names, expr: &Expr) -> Result<(), AllocError> {
    told.push_str(if has_parts(expr) { "(" } else { "" })?;
    match &expr.kind {
        ExprKind::Attr(on, name) => {
            tell_expr(told, names, on)?;
            told.push('.')?;
            tell_name(told, names, name.name)?;
        }
        ExprKind::Call(on, name, args) => {
            tell_expr(told, names, on)?;
            told.push('.')?;
            tell_name(told, names, name.name)?;
            told.push(' ')?;
            tell_each(told, names, ", ", args.as_slice())?;
        }
        ExprKind::Apply(name, args) => {
            tell_name(told, names, *name)?;
            told.push(' ')?;
            tell_each(told, names, ", ", args.as_slice())?;
        }
        ExprKind::Index(on, index) => {
            tell_expr(told, names, on)?;
            told.push_str(" at ")?;
            tell_expr(told, names, index)?;
        }
        ExprKind::List(items) => tell_each(told, names, ", ", items.as_slice())?,
        ExprKind::Neg(a) => {
            told.push('-')?;
            tell_expr(told, names, a)?;
        }
        ExprKind::Pos(a) => {
            told.push('+')?;
            tell_expr(told, names, a)?;
        }
        ExprKind::Not(a) => {
            told.push_str("not ")?;
            tell_expr(told, names, a)?;
        }
        ExprKind::Chain(first, links) => {
            tell_expr(told, names, first)?;
            tell_links(told, names, links.as_slice())?;
        }
        ExprKind::And(items) => tell_each(told, names, " and ", items.as_slice())?,
        ExprKind::Or(items) => tell_each(told, names, " or ", items.as_slice())?,
        ExprKind::Compare(op, _, left, right) => {
            tell_expr(told, names, left)?;
            told.push_str(comparison_text(*op))?;
            tell_expr(told, names, right)?;
        }
        ExprKind::IsNone(a, positive) => {
            tell_expr(told, names, a)?;
            told.push_str(if *positive {
                " is None"
            } else {
                " is not None"
            })?;
        }
        ExprKind::Cond { test, yes, no } => {
            tell_expr(told, names, yes)?;
            told.push_str(" if ")?;
            tell_expr(told, names, test)?;
            told.push_str(" else ")?;
            tell_expr(told, names, no)?;
        }
        ExprKind::Int(_)
        | ExprKind::Bool(_)
        | ExprKind::Str(_)
        | ExprKind::Nil
        | ExprKind::Var(_)
        | ExprKind::SelfRef => tell_small(told, names, &expr.kind)?,
    }
    told.push_str(if has_parts(expr) { ")" } else { "" })
}

fn has_parts(expr: &Expr) -> bool {
    match &expr.kind {
        ExprKind::Int(_)
        | ExprKind::Bool(_)
        | ExprKind::Str(_)
        | ExprKind::Nil
        | ExprKind::Var(_)
        | ExprKind::SelfRef => false,
        ExprKind::Attr(..)
        | ExprKind::Call(..)
        | ExprKind::Apply(..)
        | ExprKind::Index(..)
        | ExprKind::List(_)
        | ExprKind::Neg(_)
        | ExprKind::Pos(_)
        | ExprKind::Not(_)
        | ExprKind::Chain(..)
        | ExprKind::And(_)
        | ExprKind::Or(_)
        | ExprKind::Compare(..)
        | ExprKind::IsNone(..)
        | ExprKind::Cond { .. } => true,
    }
}

/// The names that are surely assigned.
fn tell_point(told: &mut String, names: &Names, point: &VarTypes) -> Result<(), AllocError> {
    told.push('{')?;
    for (i, var) in point.as_slice().iter().enumerate() {
        if i > 0 {
            told.push(' ')?;
        }
        tell_name(told, names, var.name)?;
    }
    told.push('}')
}

fn tell_set(
    told: &mut String,
    names: &Names,
    name: Name,
    sign: &str,
    value: &Expr,
) -> Result<(), AllocError> {
    tell_name(told, names, name)?;
    told.push_str(sign)?;
    tell_expr(told, names, value)
}

#[cycle(tell_flat)]
fn tell_operands(
    told: &mut String,
    names: &Names,
    between: &str,
    operands: &[Operand],
) -> Result<(), AllocError> {
    for (i, operand) in operands.iter().enumerate() {
        if i > 0 {
            told.push_str(between)?;
        }
        tell_test(told, names, &operand.test)?;
    }
    Ok(())
}

#[cycle(tell_flat)]
fn tell_test(told: &mut String, names: &Names, test: &FlatTest) -> Result<(), AllocError> {
    told.push('<')?;
    match test {
        FlatTest::Leaf(before, value) => {
            tell_flat(told, names, before.as_slice())?;
            tell_expr(told, names, value)?;
        }
        FlatTest::Not(test) => {
            told.push_str("not ")?;
            tell_test(told, names, test)?;
        }
        FlatTest::And(operands) => tell_operands(told, names, " and ", operands.as_slice())?,
        FlatTest::Or(operands) => tell_operands(told, names, " or ", operands.as_slice())?,
    }
    told.push('>')
}

#[cycle(tell_flat)]
fn tell_arms(told: &mut String, names: &Names, arms: &[FlatArm]) -> Result<(), AllocError> {
    for arm in arms {
        told.push_str("if ")?;
        tell_test(told, names, &arm.test)?;
        told.push_str(" [")?;
        tell_flat(told, names, arm.body.as_slice())?;
        told.push_str("] ")?;
    }
    Ok(())
}

/// Each statement ends with a semicolon.
#[cycle(tell_flat)]
pub fn tell_flat(told: &mut String, names: &Names, stmts: &[FlatStmt]) -> Result<(), AllocError> {
    for stmt in stmts {
        tell_stmt(told, names, stmt)?;
        told.push_str("; ")?;
    }
    Ok(())
}

#[cycle(tell_flat)]
fn tell_stmt(told: &mut String, names: &Names, stmt: &FlatStmt) -> Result<(), AllocError> {
    match stmt {
        FlatStmt::Mark => told.push_str("mark"),
        FlatStmt::Set(name, value) => tell_set(told, names, *name, " = ", value),
        FlatStmt::Put(name, value) => {
            told.push_str("self.")?;
            tell_set(told, names, *name, " = ", value)
        }
        FlatStmt::Give(value) => {
            told.push_str("give ")?;
            tell_expr(told, names, value)
        }
        FlatStmt::Fail(kind, message) => {
            told.push_str("fail ")?;
            tell_number(told, u32::from(*kind))?;
            match message {
                None => Ok(()),
                Some(message) => {
                    told.push(' ')?;
                    tell_expr(told, names, message)
                }
            }
        }
        FlatStmt::Code(_) => told.push_str("code"),
        FlatStmt::Break => told.push_str("break"),
        FlatStmt::Continue => told.push_str("continue"),
        FlatStmt::Call {
            on,
            callee,
            args,
            into,
            after,
        } => {
            tell_name(told, names, *into)?;
            told.push_str(" = call ")?;
            tell_expr(told, names, on)?;
            told.push('.')?;
            tell_name(told, names, callee.name)?;
            told.push(' ')?;
            tell_each(told, names, ", ", args.as_slice())?;
            told.push(' ')?;
            tell_point(told, names, after)
        }
        FlatStmt::Make {
            class,
            args,
            into,
            after,
        } => {
            tell_name(told, names, *into)?;
            told.push_str(" = make ")?;
            tell_name(told, names, class.name)?;
            told.push(' ')?;
            tell_each(told, names, ", ", args.as_slice())?;
            told.push(' ')?;
            tell_point(told, names, after)
        }
        FlatStmt::If {
            arms,
            other,
            after: _,
        } => {
            tell_arms(told, names, arms.as_slice())?;
            told.push_str("else [")?;
            tell_flat(told, names, other.as_slice())?;
            told.push(']')
        }
        FlatStmt::While {
            head: _,
            test,
            start: _,
            body,
            after: _,
        } => {
            told.push_str("while ")?;
            tell_test(told, names, test)?;
            told.push_str(" [")?;
            tell_flat(told, names, body.as_slice())?;
            told.push(']')
        }
        FlatStmt::Try {
            start: _,
            body,
            clauses,
            after: _,
        } => {
            told.push_str("try [")?;
            tell_flat(told, names, body.as_slice())?;
            told.push(']')?;
            tell_clauses(told, names, clauses.as_slice())
        }
    }
}

#[cycle(tell_flat)]
fn tell_clauses(
    told: &mut String,
    names: &Names,
    clauses: &[FlatClause],
) -> Result<(), AllocError> {
    for clause in clauses {
        told.push_str(" except")?;
        tell_kinds(told, clause.kinds.as_slice())?;
        told.push_str(" [")?;
        tell_flat(told, names, clause.body.as_slice())?;
        told.push(']')?;
    }
    Ok(())
}

fn tell_kinds(told: &mut String, kinds: &[u8]) -> Result<(), AllocError> {
    for kind in kinds {
        told.push(' ')?;
        tell_number(told, u32::from(*kind))?;
    }
    Ok(())
}
