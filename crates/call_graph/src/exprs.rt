//! The calls and creations of expressions.

ghost use Rattle.std.specs.Prelude.{◌≡◌, ◌++◌, map, OnOk};
ghost use Rattle.py_tree.specs.PlainExpressions.{plain_expr, plain_exprs, exprs_of, plain_links, links_of};
ghost use Rattle.py_tree.specs.PlainStatements.{plain_option, plain_over};
ghost use Rattle.py_tree.specs.PlainProgram.{plain_class};
ghost use Rattle.call_graph.specs.Suspending as spec;
ghost use Rattle.py_tree.specs.ClassViews.{numbers_of};

use crate::sites::{Sites, add_call, add_creation};
use py_tree::{Class, Expr, ExprKind, Exprs, Links, Name, Over};
use std::alloc::{AllocError, Global};

/// Adds the calls and creations of an expression, in a class whose methods have these names.
#[cycle(exprs)]
#[tactic(auto, using(crate::proofs::ExprRules::expr_rules))]
pub fn find(
    alloc: Global,
    classes: &[Class],
    methods: &[Name],
    expr: &Expr,
    found: &mut Sites,
) -> Result<(), AllocError>
    ensures { OnOk result (found.new ≡ found.old ++ spec.sites (map plain_class classes.now) (numbers_of methods.now) (plain_expr expr.now)) }
{
    match &expr.kind {
        ExprKind::Int(_)
        | ExprKind::Bool(_)
        | ExprKind::Str(_)
        | ExprKind::Nil
        | ExprKind::Var(_)
        | ExprKind::SelfRef => Ok(()),
        ExprKind::Call(on, name, args) => {
            find(alloc, classes, methods, on, found)?;
            find_in(alloc, classes, methods, args, found)?;
            add_call(alloc, methods, on, name.name, found)
        }
        ExprKind::Apply(name, args) => {
            find_in(alloc, classes, methods, args, found)?;
            add_creation(alloc, classes, *name, found)
        }
        ExprKind::List(items) | ExprKind::And(items) | ExprKind::Or(items) => {
            find_in(alloc, classes, methods, items, found)
        }
        ExprKind::Attr(a, _)
        | ExprKind::Neg(a)
        | ExprKind::Pos(a)
        | ExprKind::Not(a)
        | ExprKind::IsNone(a, _) => find(alloc, classes, methods, a, found),
        ExprKind::Chain(first, links) => {
            find(alloc, classes, methods, first, found)?;
            find_in_links(alloc, classes, methods, links, found)
        }
        ExprKind::Index(a, b) | ExprKind::Compare(_, _, a, b) => {
            find(alloc, classes, methods, a, found)?;
            find(alloc, classes, methods, b, found)
        }
        ExprKind::Cond { test, yes, no } => {
            find(alloc, classes, methods, test, found)?;
            find(alloc, classes, methods, yes, found)?;
            find(alloc, classes, methods, no, found)
        }
    }
}

#[cycle(exprs)]
#[tactic(auto, using(crate::proofs::ExprRules::list_rules))]
fn find_in(
    alloc: Global,
    classes: &[Class],
    methods: &[Name],
    exprs: &Exprs,
    found: &mut Sites,
) -> Result<(), AllocError>
    ensures { OnOk result (found.new ≡ found.old ++ spec.sites_in (map plain_class classes.now) (numbers_of methods.now) (exprs_of (plain_exprs exprs.now))) }
{
    for expr in exprs.as_slice() {
        find(alloc, classes, methods, expr, found)?;
    }
    Ok(())
}

#[cycle(exprs)]
#[tactic(auto, using(crate::proofs::ExprRules::link_rules))]
fn find_in_links(
    alloc: Global,
    classes: &[Class],
    methods: &[Name],
    links: &Links,
    found: &mut Sites,
) -> Result<(), AllocError>
    ensures { OnOk result (found.new ≡ found.old ++ spec.sites_in_links (map plain_class classes.now) (numbers_of methods.now)
        (links_of (plain_links links.now))) }
{
    for link in links.as_slice() {
        find(alloc, classes, methods, &link.right, found)?;
    }
    Ok(())
}

/// Adds the calls and creations of an expression that may be left out.
#[tactic(auto, using(crate::proofs::Parts::no_more))]
pub fn find_if_there(
    alloc: Global,
    classes: &[Class],
    methods: &[Name],
    expr: &Option<Expr>,
    found: &mut Sites,
) -> Result<(), AllocError>
    ensures { OnOk result (found.new ≡ found.old ++ spec.sites_if_there (map plain_class classes.now) (numbers_of methods.now)
        (plain_option plain_expr expr.now)) }
{
    match expr {
        None => Ok(()),
        Some(expr) => find(alloc, classes, methods, expr, found),
    }
}

/// Adds the calls and creations of what a `for` goes over.
#[tactic(auto, using(crate::proofs::Parts::two_parts))]
pub fn find_over(
    alloc: Global,
    classes: &[Class],
    methods: &[Name],
    over: &Over,
    found: &mut Sites,
) -> Result<(), AllocError>
    ensures { OnOk result (found.new ≡ found.old ++ spec.sites_over (map plain_class classes.now) (numbers_of methods.now) (plain_over over.now)) }
{
    match over {
        Over::Range(start, end) => {
            find_if_there(alloc, classes, methods, start, found)?;
            find(alloc, classes, methods, end, found)
        }
        Over::Items(items) => find(alloc, classes, methods, items, found),
    }
}
