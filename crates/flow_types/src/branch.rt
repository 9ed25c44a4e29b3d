//! Where a test is True and where it is False, and where ways through arms and loops meet again.

ghost use Rattle.std.specs.Prelude.{◌≡◌, [], ◌∷◌, true, false, List, IfOk, OnOk};
ghost use Rattle.py_tree.specs.PlainExpressions.{plain_expr};
ghost use Rattle.py_tree.specs.FlowEnvironment.{PlainLocal, shown, narrowed};
ghost use Rattle.py_tree.specs.Flow as spec;
ghost use Rattle.entity_types.specs.Views.{plain_local, plain_locals};
ghost use Rattle.flow_types.specs.Views.{plain_standing, plain_standings, plain_breaks, seen_at};
ghost use Rattle.flow_types.specs.Answers.{Splits};

use crate::context::Context;
use crate::known::{Standing, Standings, join_way, settle, stand_where_met, way};
use crate::values::check_condition;
use entity_types::{FlowEnv, Local, Locals, RuleError, narrow_here, shows};
use py_tree::{Expr, is_true};
use sf_list::Sequence;
use std::alloc::{AllocError, Global};

/// What is known of a local where a test is False.
#[tactic(auto, unfolding(py_tree::specs::Flow::known_at, py_tree::specs::FlowEnvironment::narrowed))]
fn stands_where_false(local: &Local, test: &Expr) -> Standing
    ensures { plain_standing result ∷ [] ≡ spec.known_at (narrowed (shown false (plain_expr test.now)) (plain_local local.now ∷ [])) }
{
    Standing {
        assigned: local.assigned,
        not_none: shows(test, false, local.name) || local.not_none,
    }
}

/// What is known of locals where a test is False.
#[tactic(auto, using(crate::proofs::StandingLaws::shown_laws))]
fn known_where_false(alloc: Global, locals: &[Local], test: &Expr) -> Result<Standings, AllocError>
    ensures { IfOk result (λ made. plain_standings made ≡ spec.known_at (narrowed (shown false (plain_expr test.now)) (plain_locals locals.now))) }
{
    let mut made = Sequence::new(alloc);
    for local in locals {
        made.push(alloc, stands_where_false(local, test))?;
    }
    Ok(made)
}

/// Goes where a test is True.
#[tactic(auto, unfolding(py_tree::specs::FlowEnvironment::where_test))]
pub fn narrow_where_true(env: &mut FlowEnv, test: &Expr)
    ensures locals { plain_locals env.new.locals ≡ narrowed (shown true (plain_expr test.now)) (plain_locals env.old.locals) }
    ensures class { env.new.class ≡ env.old.class }
    ensures method { env.new.method ≡ env.old.method }
{
    narrow_here(env, test, true);
}

/// Goes where a test is True, and tells what is known where it is False.
pub fn go_where_true(
    alloc: Global,
    context: &Context<'_>,
    env: &mut FlowEnv,
    test: &Expr,
) -> Result<Standings, RuleError>
    ensures { Splits (spec.condition_at (seen_at context.now env.old) (plain_locals env.old.locals) (plain_expr test.now))
        (plain_expr test.now) env.old env.new result }
{
    check_condition(alloc, context, env, test)?;
    let otherwise = known_where_false(alloc, env.locals.as_slice(), test)?;
    narrow_where_true(env, test);
    Ok(otherwise)
}

/// From the end of an arm to the next test of an `if`.
pub fn leave_arm(
    alloc: Global,
    locals: &mut Locals,
    ended: &mut Option<Standings>,
    goes_on: bool,
    otherwise: &[Standing],
) -> Result<(), AllocError>
    ensures ended { OnOk result (plain_breaks ended.new ≡ spec.meet (plain_breaks ended.old) (spec.way goes_on (plain_locals locals.old))) }
    ensures locals { OnOk result (plain_locals locals.new ≡ spec.settled (plain_locals locals.old) (plain_standings otherwise.now)) }
{
    join_way(alloc, ended, goes_on, locals.as_slice())?;
    settle(locals, otherwise);
    Ok(())
}

/// From the end of an `if` to the point behind it.
pub fn leave_if(
    alloc: Global,
    locals: &mut Locals,
    ended: Option<Standings>,
    goes_on: bool,
) -> Result<(), AllocError>
    ensures { OnOk result (plain_locals locals.new ≡ spec.behind_ways (plain_locals locals.old)
        (spec.meet (plain_breaks ended) (spec.way goes_on (plain_locals locals.old)))) }
{
    let last = way(alloc, goes_on, locals.as_slice())?;
    stand_where_met(alloc, locals, ended, last)
}

/// From the end of the body of a `while` to the point behind it.
#[tactic(auto, unfolding(py_tree::specs::Flow::after_while))]
pub fn leave_while(
    alloc: Global,
    locals: &mut Locals,
    test: &Expr,
    otherwise: Standings,
    breaks: Option<Standings>,
) -> Result<(), AllocError>
    ensures { (head : List PlainLocal) → plain_standings otherwise ≡ spec.known_at (narrowed (shown false (plain_expr test.now)) head)
        → OnOk result (plain_locals locals.new ≡ spec.after_while (plain_expr test.now) head
        (record { locals = plain_locals locals.old; breaks = plain_breaks breaks })) }
{
    let left = if is_true(test) { None } else { Some(otherwise) };
    stand_where_met(alloc, locals, left, breaks)
}
