//! Expressions that read `self`, a field of it, or a variable, and nothing else.

ghost use Rattle.std.specs.Prelude.{◌≡◌, option_map};
ghost use Rattle.py_tree.specs.PlainExpressions.{plain_expr};
ghost use Rattle.py_tree.specs.ClassRules as spec;

use crate::expr::{Expr, ExprKind};
use crate::names::Name;

/// Whether an expression is the word `self`.
#[tactic(auto, using(crate::proofs::Views::expr_views))]
pub fn is_self(expr: &Expr) -> bool
    ensures { result ≡ spec.is_self (plain_expr expr.now) }
{
    match expr.kind {
        ExprKind::SelfRef => true,
        ExprKind::Int(_)
        | ExprKind::Bool(_)
        | ExprKind::Str(_)
        | ExprKind::Nil
        | ExprKind::Var(_)
        | ExprKind::Attr(..)
        | ExprKind::Call(..)
        | ExprKind::Apply(..)
        | ExprKind::Index(..)
        | ExprKind::List(_)
        | ExprKind::Neg(_)
        | ExprKind::Pos(_)
        | ExprKind::Not(_)
        | ExprKind::Chain(..)
        | ExprKind::And(_)
        | ExprKind::Or(_)
        | ExprKind::Compare(..)
        | ExprKind::IsNone(..)
        | ExprKind::Cond { .. } => false,
    }
}

/// The f of `self.f`.
#[tactic(auto, using(crate::proofs::Views::expr_views))]
pub(crate) fn self_field(expr: &Expr) -> Option<Name>
    ensures { option_map (λ name. name.0) result ≡ spec.self_field (plain_expr expr.now) }
{
    match &expr.kind {
        ExprKind::Attr(on, name) => { if is_self(on) { Some(name.name) } else { None } }
        ExprKind::Int(_)
        | ExprKind::Bool(_)
        | ExprKind::Str(_)
        | ExprKind::Nil
        | ExprKind::Var(_)
        | ExprKind::SelfRef
        | ExprKind::Call(..)
        | ExprKind::Apply(..)
        | ExprKind::Index(..)
        | ExprKind::List(_)
        | ExprKind::Neg(_)
        | ExprKind::Pos(_)
        | ExprKind::Not(_)
        | ExprKind::Chain(..)
        | ExprKind::And(_)
        | ExprKind::Or(_)
        | ExprKind::Compare(..)
        | ExprKind::IsNone(..)
        | ExprKind::Cond { .. } => None,
    }
}

/// The name of an expression that is a name alone.
#[tactic(auto, using(crate::proofs::Views::expr_views))]
pub fn variable(expr: &Expr) -> Option<Name>
    ensures { option_map (λ name. name.0) result ≡ spec.variable (plain_expr expr.now) }
{
    match expr.kind {
        ExprKind::Var(name) => Some(name),
        ExprKind::Int(_)
        | ExprKind::Bool(_)
        | ExprKind::Str(_)
        | ExprKind::Nil
        | ExprKind::SelfRef
        | ExprKind::Attr(..)
        | ExprKind::Call(..)
        | ExprKind::Apply(..)
        | ExprKind::Index(..)
        | ExprKind::List(_)
        | ExprKind::Neg(_)
        | ExprKind::Pos(_)
        | ExprKind::Not(_)
        | ExprKind::Chain(..)
        | ExprKind::And(_)
        | ExprKind::Or(_)
        | ExprKind::Compare(..)
        | ExprKind::IsNone(..)
        | ExprKind::Cond { .. } => None,
    }
}
