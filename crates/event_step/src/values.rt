//! The values of the expressions of a block.

ghost use Rattle.std.specs.Prelude.{◌≡◌, IfOk};
ghost use Rattle.py_tree.specs.PlainExpressions.{plain_expr, plain_exprs, exprs_of};
ghost use Rattle.event_step.specs.Running.{held_of};
ghost use Rattle.event_step.specs.Values.{AddedNow, AddsNow, AllNow, GivesNow, PartsNow, added_at, parts_at, value_at, values_at};

use crate::method::{Place, Running};
use py_tree::{Expr, Exprs};
use sf_list::Sequence;
use sf_value::{Failure, Outcome, Value, Values};
use source_meaning::eval_here;
use std::alloc::AllocError;

/// What expressions come to.
#[derive(Drop)]
pub(crate) enum All {
    Given(Values),
    Failed(Failure),
}

/// What the receiver and the arguments of a call come to.
#[derive(Drop)]
pub(crate) enum CallParts {
    Given(Value, Values),
    Failed(Failure),
}

/// What an expression comes to.
pub(crate) fn value(
    place: &Place<'_>,
    expr: &Expr,
    running: &mut Running,
) -> Result<Outcome, AllocError>
    ensures given { IfOk result (λ outcome. GivesNow outcome running.new (value_at place.now (plain_expr expr.now) running.old)) }
    ensures vars { running.new.vars ≡ running.old.vars }
{
    eval_here(
        place.alloc,
        place.program,
        &mut running.held,
        &running.vars,
        place.me,
        expr,
        &mut running.wrote,
        &mut running.steps,
        place.depth,
    )
}

/// Adds the value of an expression behind others, or tells its failure.
fn add_value(
    place: &Place<'_>,
    expr: &Expr,
    running: &mut Running,
    values: &mut Values,
) -> Result<Option<Failure>, AllocError>
    ensures added { IfOk result (λ failed. AddsNow failed values.old values.new running.new (value_at place.now (plain_expr expr.now) running.old)) }
    ensures vars { running.new.vars ≡ running.old.vars }
{
    match value(place, expr, running)? {
        Outcome::Value(value) => {
            values.push(place.alloc, value)?;
            Ok(None)
        }
        Outcome::Failed(failure) => Ok(Some(failure)),
    }
}

/// Adds the values of expressions behind others, in their order, or tells the first failure.
fn add_values(
    place: &Place<'_>,
    exprs: &[Expr],
    running: &mut Running,
    values: &mut Values,
) -> Result<Option<Failure>, AllocError>
    ensures added { IfOk result (λ failed. AddedNow failed values.new running.new
        (added_at place.now (exprs_of (plain_exprs exprs.now)) values.old running.old)) }
    ensures vars { running.new.vars ≡ running.old.vars }
{
    for expr in exprs {
        if let Some(failure) = add_value(place, expr, running, values)? {
            return Ok(Some(failure));
        }
    }
    Ok(None)
}

/// What expressions come to, in their order.
pub(crate) fn all_values(
    place: &Place<'_>,
    exprs: &[Expr],
    running: &mut Running,
) -> Result<All, AllocError>
    ensures given { IfOk result (λ all. AllNow all running.new (values_at place.now (exprs_of (plain_exprs exprs.now)) running.old)) }
    ensures vars { running.new.vars ≡ running.old.vars }
{
    let mut values = Sequence::new(place.alloc);
    match add_values(place, exprs, running, &mut values) {
        Ok(None) => Ok(All::Given(values)),
        Ok(Some(failure)) => {
            drop(values);
            Ok(All::Failed(failure))
        }
        Err(error) => {
            drop(values);
            Err(error)
        }
    }
}

/// What the receiver of a call and then its arguments come to.
pub(crate) fn call_parts(
    place: &Place<'_>,
    on: &Expr,
    args: &Exprs,
    running: &mut Running,
) -> Result<CallParts, AllocError>
    ensures given { IfOk result (λ parts. PartsNow parts running.new (parts_at place.now (plain_expr on.now) (exprs_of (plain_exprs args.now)) running.old)) }
    ensures vars { running.new.vars ≡ running.old.vars }
{
    let on = match value(place, on, running)? {
        Outcome::Value(on) => on,
        Outcome::Failed(failure) => return Ok(CallParts::Failed(failure)),
    };
    match all_values(place, args.as_slice(), running) {
        Ok(All::Given(args)) => Ok(CallParts::Given(on, args)),
        Ok(All::Failed(failure)) => {
            drop(on);
            Ok(CallParts::Failed(failure))
        }
        Err(error) => {
            drop(on);
            Err(error)
        }
    }
}
