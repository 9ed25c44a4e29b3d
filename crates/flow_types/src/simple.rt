//! Statements that have no statements in them.

ghost use Rattle.std.specs.Prelude.{ℕ, true, false, List};
ghost use Rattle.std.specs.declared.option.Option.{Option as Perhaps};
ghost use Rattle.py_tree.specs.declared.names.Place.{Place as At};
ghost use Rattle.py_tree.specs.PlainTypes.{plain_written};
ghost use Rattle.py_tree.specs.PlainExpressions.{plain_expr};
ghost use Rattle.py_tree.specs.PlainStatements.{PBreak, PContinue, PDo, PReturn, PRaise, PAssert, PAssign, PAugment, plain_option};
ghost use Rattle.py_tree.specs.Flow as spec;
ghost use Rattle.flow_types.specs.declared.known.Standing.{Standing as Stands};
ghost use Rattle.flow_types.specs.Views.{way_of, seen_at};
ghost use Rattle.flow_types.specs.Answers.{Flows};

use crate::assign::{assign, augment};
use crate::branch::narrow_where_true;
use crate::context::Context;
use crate::known::{Standings, join_way};
use crate::values::{check_condition, check_message, check_return, type_at};
use entity_types::{FlowEnv, RuleError, refuse};
use py_tree::{BinOp, Expr, Place, Rule, Target, WrittenTy};
use std::alloc::Global;

/// `break`.
#[tactic(auto, unfolding(py_tree::specs::Flow::flow))]
pub fn break_off(
    alloc: Global,
    context: &Context<'_>,
    env: &FlowEnv,
    breaks: &mut Option<Standings>,
    place: Place,
) -> Result<bool, RuleError>
    ensures { Flows (spec.flow (seen_at context.now env.now) (way_of env.now breaks.old) (PBreak place)) false env.now env.now breaks.new result }
{
    refuse(!context.in_loop, Rule::LoopWord, place)?;
    join_way(alloc, breaks, true, env.locals.as_slice())?;
    Ok(false)
}

/// `continue`.
#[tactic(auto, unfolding(py_tree::specs::Flow::flow))]
pub fn go_to_head(context: &Context<'_>, env: &FlowEnv, place: Place) -> Result<bool, RuleError>
    ensures { (breaks : Perhaps (List Stands)) → Flows (spec.flow (seen_at context.now env.now) (way_of env.now breaks) (PContinue place)) false env.now
        env.now breaks result }
{
    refuse(!context.in_loop, Rule::LoopWord, place)?;
    Ok(false)
}

/// An expression whose value isn't used.
#[tactic(auto, unfolding(py_tree::specs::Flow::flow))]
pub fn evaluate(
    alloc: Global,
    context: &Context<'_>,
    env: &FlowEnv,
    value: &Expr,
) -> Result<bool, RuleError>
    ensures { (at : At) (breaks : Perhaps (List Stands)) → Flows
        (spec.flow (seen_at context.now env.now) (way_of env.now breaks) (PDo at (plain_expr value.now))) true env.now env.now breaks result }
{
    type_at(alloc, context, env, None, value)?;
    Ok(true)
}

/// `return`.
#[tactic(auto, unfolding(py_tree::specs::Flow::flow))]
pub fn return_here(
    alloc: Global,
    context: &Context<'_>,
    env: &FlowEnv,
    place: Place,
    value: &Option<Expr>,
) -> Result<bool, RuleError>
    ensures { (breaks : Perhaps (List Stands)) → Flows (spec.flow (seen_at context.now env.now) (way_of env.now breaks)
        (PReturn place (plain_option plain_expr value.now))) false env.now env.now breaks result }
{
    check_return(alloc, context, env, place, value)?;
    Ok(false)
}

/// `raise`, whatever its kind.
#[tactic(auto, unfolding(py_tree::specs::Flow::flow))]
pub fn raise_here(
    alloc: Global,
    context: &Context<'_>,
    env: &FlowEnv,
    message: &Option<Expr>,
) -> Result<bool, RuleError>
    ensures { (at : At) (kind : ℕ) (breaks : Perhaps (List Stands))
        → Flows (spec.flow (seen_at context.now env.now) (way_of env.now breaks) (PRaise at kind (plain_option plain_expr message.now))) false env.now
        env.now breaks result }
{
    check_message(alloc, context, env, message)?;
    Ok(false)
}

/// `assert`: behind it its test is True.
#[tactic(auto, unfolding(py_tree::specs::Flow::flow))]
pub fn assert_here(
    alloc: Global,
    context: &Context<'_>,
    env: &mut FlowEnv,
    test: &Expr,
    message: &Option<Expr>,
) -> Result<bool, RuleError>
    ensures { (at : At) (breaks : Perhaps (List Stands)) → Flows
        (spec.flow (seen_at context.now env.old) (way_of env.old breaks) (PAssert at (plain_expr test.now) (plain_option plain_expr message.now))) true
        env.old env.new breaks result }
{
    check_condition(alloc, context, env, test)?;
    check_message(alloc, context, env, message)?;
    narrow_where_true(env, test);
    Ok(true)
}

/// `x = e` or `self.f = e`, with a type or without.
#[tactic(auto, unfolding(py_tree::specs::Flow::flow))]
pub fn assign_here(
    alloc: Global,
    context: &Context<'_>,
    env: &mut FlowEnv,
    place: Place,
    target: Target,
    ty: &Option<WrittenTy>,
    value: &Expr,
) -> Result<bool, RuleError>
    ensures { (breaks : Perhaps (List Stands)) → Flows (spec.flow (seen_at context.now env.old) (way_of env.old breaks)
        (PAssign place target (plain_option plain_written ty.now) (plain_expr value.now))) true env.old env.new breaks result }
{
    assign(alloc, context, env, place, target, ty, value)?;
    Ok(true)
}

/// `x op= e` or `self.f op= e`.
#[tactic(auto, unfolding(py_tree::specs::Flow::flow))]
pub fn augment_here(
    alloc: Global,
    context: &Context<'_>,
    env: &mut FlowEnv,
    place: Place,
    target: Target,
    op: BinOp,
    op_place: Place,
    value: &Expr,
) -> Result<bool, RuleError>
    ensures { (breaks : Perhaps (List Stands)) → Flows (spec.flow (seen_at context.now env.old) (way_of env.old breaks)
        (PAugment place target op op_place (plain_expr value.now))) true env.old env.new breaks result }
{
    augment(alloc, context, env, place, target, op, op_place, value)?;
    Ok(true)
}
