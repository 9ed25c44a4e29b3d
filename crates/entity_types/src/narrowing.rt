//! What a test shows of names.

ghost use Rattle.std.specs.Prelude.{◌≡◌, length, IfOk};
ghost use Rattle.py_tree.specs.PlainExpressions.{plain_expr, plain_exprs, exprs_of};
ghost use Rattle.py_tree.specs.FlowEnvironment as flow;
ghost use Rattle.entity_types.specs.Views.{plain_locals, plain_env};
ghost use Rattle.entity_types.specs.Scopes.{known_by};

use crate::env::{FlowEnv, Local, Locals};
use py_tree::{Expr, ExprKind, Name, variable};
use sf_list::{Sequence, TryClone};
use std::alloc::{AllocError, Global};

fn says_not_none(truth: bool, positive: bool) -> bool
    ensures { result ≡ flow.says_not_none truth positive }
{
    if truth { !positive } else { positive }
}

#[tactic(auto, using(crate::proofs::ShownLaws::variable_laws))]
fn is_variable(expr: &Expr, name: Name) -> bool
    ensures { result ≡ flow.has_name (flow.variable_in (plain_expr expr.now)) name.0 }
{
    match variable(expr) {
        None => false,
        Some(found) => found.0 == name.0,
    }
}

/// Whether a name is surely not None where a test is True, or where it is False.
#[cycle(shows)]
#[tactic(auto, using(py_tree::proofs::TypeRules::shown_rules, crate::proofs::ShownLaws::shown_laws))]
pub fn shows(test: &Expr, truth: bool, name: Name) -> bool
    ensures { result ≡ flow.has_name (flow.shown truth (plain_expr test.now)) name.0 }
{
    match &test.kind {
        ExprKind::IsNone(a, positive) => says_not_none(truth, *positive) && is_variable(a, name),
        ExprKind::Not(a) => shows(a, !truth, name),
        ExprKind::And(items) => truth && any_shows(items.as_slice(), truth, name),
        ExprKind::Or(items) => !truth && any_shows(items.as_slice(), truth, name),
        ExprKind::Int(_)
        | ExprKind::Bool(_)
        | ExprKind::Str(_)
        | ExprKind::Nil
        | ExprKind::Var(_)
        | ExprKind::SelfRef
        | ExprKind::Attr(..)
        | ExprKind::Call(..)
        | ExprKind::Apply(..)
        | ExprKind::Index(..)
        | ExprKind::List(_)
        | ExprKind::Neg(_)
        | ExprKind::Pos(_)
        | ExprKind::Chain(..)
        | ExprKind::Compare(..)
        | ExprKind::Cond { .. } => false,
    }
}

#[cycle(shows)]
#[tactic(auto, using(crate::proofs::ShownLaws::any_laws))]
fn any_shows(tests: &[Expr], truth: bool, name: Name) -> bool
    ensures { result ≡ flow.has_name (flow.shown_by_each truth (exprs_of (plain_exprs tests.now))) name.0 }
{
    for test in tests {
        if shows(test, truth, name) {
            return true;
        }
    }
    false
}

/// Of locals that are known beside them: those that a test shows are surely not None besides.
pub fn mark_shown(locals: &[Local], not_none: &mut Sequence<bool>, test: &Expr, truth: bool)
    requires { length not_none.old ≡ length locals.now }
    ensures count { length not_none.new ≡ length not_none.old }
    ensures known { known_by (plain_locals locals.now) not_none.new
        ≡ flow.narrowed (flow.shown truth (plain_expr test.now)) (known_by (plain_locals locals.now) not_none.old) }
{
    for i in 0..locals.len() {
        if shows(test, truth, locals[i].name) {
            not_none.set(i, true);
        }
    }
}

fn narrow_locals(locals: &mut Locals, test: &Expr, truth: bool)
    ensures { plain_locals locals.new ≡ flow.narrowed (flow.shown truth (plain_expr test.now)) (plain_locals locals.old) }
{
    for i in 0..locals.len() {
        let local = locals.at_mut(i);
        if shows(test, truth, local.name) {
            local.not_none = true;
        }
    }
}

/// What is known besides where a test is True, or where it is False.
#[tactic(auto, unfolding(py_tree::specs::FlowEnvironment::where_test))]
pub fn narrow_here(env: &mut FlowEnv, test: &Expr, truth: bool)
    ensures { plain_env env.new ≡ flow.where_test truth (plain_expr test.now) (plain_env env.old) }
{
    narrow_locals(&mut env.locals, test, truth);
}

/// The environment in which the names that a test shows are surely not None besides, where it is
/// True, or where it is False.
pub fn narrow(alloc: Global, env: &FlowEnv, test: &Expr, truth: bool) -> Result<FlowEnv, AllocError>
    ensures { IfOk result (λ r. plain_env r ≡ flow.where_test truth (plain_expr test.now) (plain_env env.now)) }
{
    let mut narrowed = env.try_clone(alloc)?;
    narrow_here(&mut narrowed, test, truth);
    Ok(narrowed)
}
