//! Which variables expressions read.

ghost use Rattle.std.specs.Prelude.{◌≡◌};
ghost use Rattle.py_tree.specs.PlainExpressions.{plain_expr, plain_exprs, exprs_of, plain_links, links_of};
ghost use Rattle.py_tree.specs.PlainStatements.{plain_option, plain_over};
ghost use Rattle.live_laws.specs.Reads as spec;

use py_tree::{Expr, ExprKind, Exprs, Links, Name, Over, Target};

/// Whether a variable is read somewhere in an expression.
#[cycle(expressions)]
#[tactic(auto, using(crate::proofs::ReadRules::expr_rules))]
pub(crate) fn reads(expr: &Expr, name: Name) -> bool
    ensures { result ≡ spec.reads (plain_expr expr.now) name.0 }
{
    match &expr.kind {
        ExprKind::Var(x) => x.0 == name.0,
        ExprKind::Int(_)
        | ExprKind::Bool(_)
        | ExprKind::Str(_)
        | ExprKind::Nil
        | ExprKind::SelfRef
        | ExprKind::Attr(..) => false,
        ExprKind::Neg(inner)
        | ExprKind::Pos(inner)
        | ExprKind::Not(inner)
        | ExprKind::IsNone(inner, _) => reads(inner, name),
        ExprKind::Index(left, right) | ExprKind::Compare(_, _, left, right) => {
            reads(left, name) || reads(right, name)
        }
        ExprKind::Cond { test, yes, no } => {
            reads(test, name) || reads(yes, name) || reads(no, name)
        }
        ExprKind::Chain(first, links) => reads(first, name) || links_read(links, name),
        ExprKind::Call(on, _, args) => reads(on, name) || any_read(args, name),
        ExprKind::Apply(_, items)
        | ExprKind::List(items)
        | ExprKind::And(items)
        | ExprKind::Or(items) => any_read(items, name),
    }
}

#[cycle(expressions)]
#[tactic(auto, using(crate::proofs::ReadRules::exprs_rules))]
pub(crate) fn any_read(exprs: &Exprs, name: Name) -> bool
    ensures { result ≡ spec.any_read (exprs_of (plain_exprs exprs.now)) name.0 }
{
    for expr in exprs.as_slice() {
        if reads(expr, name) {
            return true;
        }
    }
    false
}

#[cycle(expressions)]
#[tactic(auto, using(crate::proofs::ReadRules::links_rules))]
fn links_read(links: &Links, name: Name) -> bool
    ensures { result ≡ spec.links_read (links_of (plain_links links.now)) name.0 }
{
    for link in links.as_slice() {
        if reads(&link.right, name) {
            return true;
        }
    }
    false
}

pub(crate) fn reads_if_there(expr: &Option<Expr>, name: Name) -> bool
    ensures { result ≡ spec.reads_if_there (plain_option plain_expr expr.now) name.0 }
{
    match expr {
        None => false,
        Some(expr) => reads(expr, name),
    }
}

pub(crate) fn over_reads(over: &Over, name: Name) -> bool
    ensures { result ≡ spec.over_reads (plain_over over.now) name.0 }
{
    match over {
        Over::Items(items) => reads(items, name),
        Over::Range(start, end) => reads_if_there(start, name) || reads(end, name),
    }
}

/// Whether an assignment to this target assigns a variable.
pub(crate) fn assigns(target: Target, name: Name) -> bool
    ensures { result ≡ spec.assigns target name.0 }
{
    match target {
        Target::Local(x) => x.name.0 == name.0,
        Target::Field(_) => false,
    }
}
