//! Expressions that call no method and create nothing, which change nothing and take no step.

ghost use Rattle.std.specs.Prelude.{◌≡◌};
ghost use Rattle.py_tree.specs.PlainExpressions.{plain_expr, plain_exprs, exprs_of, plain_links, links_of};
ghost use Rattle.program_meaning.specs.Purity as spec;

use py_tree::{Expr, ExprKind, Exprs, Links, function_of};

/// Whether an expression calls no method and creates nothing.
#[cycle(purity)]
#[tactic(auto, using(program_meaning::proofs::PurityLaws::pure_is))]
pub(crate) fn is_pure(expr: &Expr) -> bool
    ensures { result ≡ spec.is_pure (plain_expr expr.now) }
{
    match &expr.kind {
        ExprKind::Int(_)
        | ExprKind::Bool(_)
        | ExprKind::Str(_)
        | ExprKind::Nil
        | ExprKind::Var(_)
        | ExprKind::SelfRef
        | ExprKind::Attr(..) => true,
        ExprKind::Call(..) => false,
        ExprKind::Apply(name, args) => function_of(*name).is_some() && all_pure(args),
        ExprKind::List(items) | ExprKind::And(items) | ExprKind::Or(items) => all_pure(items),
        ExprKind::Neg(a) | ExprKind::Pos(a) | ExprKind::Not(a) | ExprKind::IsNone(a, _) => {
            is_pure(a)
        }
        ExprKind::Chain(first, links) => is_pure(first) && links_pure(links),
        ExprKind::Index(a, b) | ExprKind::Compare(_, _, a, b) => is_pure(a) && is_pure(b),
        ExprKind::Cond { test, yes, no } => is_pure(test) && is_pure(yes) && is_pure(no),
    }
}

#[cycle(purity)]
#[tactic(auto, using(program_meaning::proofs::PurityLaws::list_rules))]
fn all_pure(exprs: &Exprs) -> bool
    ensures { result ≡ spec.all_pure (exprs_of (plain_exprs exprs.now)) }
{
    for expr in exprs.as_slice() {
        if !is_pure(expr) {
            return false;
        }
    }
    true
}

#[cycle(purity)]
#[tactic(auto, using(program_meaning::proofs::PurityLaws::link_rules))]
fn links_pure(links: &Links) -> bool
    ensures { result ≡ spec.links_pure (links_of (plain_links links.now)) }
{
    for link in links.as_slice() {
        if !is_pure(&link.right) {
            return false;
        }
    }
    true
}
