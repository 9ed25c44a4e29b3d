//! The end of a block, and what follows it.

ghost use Rattle.std.specs.Prelude.{ℕ, IfOk};
ghost use Rattle.py_tree.specs.PlainExpressions.{plain_expr, plain_exprs, exprs_of};
ghost use Rattle.sf_value.specs.Keys.{key_of};
ghost use Rattle.program_meaning.specs.Evaluation.{key_in};
ghost use Rattle.block_code.specs.PlainBlocks.{EBranch, plain_catches, plain_end, plain_block};
ghost use Rattle.event_step.specs.Turns.{CallsAs, FallsAs, MakesAs, TurnsAs, Waited, ending_at, asking_at, wanting_at, block_at};

use crate::blocks::catch_of;
use crate::items::run_items;
use crate::method::{Part, Place, Running, Turn, take_step};
use crate::values::{All, CallParts, all_values, call_parts, value};
use block_code::{Block, Catch, End};
use py_tree::{Expr, Exprs};
use sf_value::{Failure, Outcome, Ref, Value, Values};
use source_meaning::{
    DEPTH_LIMIT, Ended, RECURSION_ERROR, bare_failure, take_truth, target_entity,
};
use std::alloc::{AllocError, Global};

/// What follows a failure in a block of these catches.
pub(crate) fn fall(catches: &[Catch], failure: Failure) -> Turn
    ensures { FallsAs result (plain_catches catches.now) failure }
{
    match catch_of(catches, failure.kind) {
        Some(to) => {
            drop(failure);
            Turn::Goes(to)
        }
        None => Turn::Ends(Part::Failed(failure)),
    }
}

/// Goes on by a test.
fn branch(
    place: &Place<'_>,
    number: u32,
    test: &Expr,
    holds: u32,
    other: u32,
    catches: &[Catch],
    running: &mut Running,
) -> Result<Turn, AllocError>
    ensures { TurnsAs result running.new (ending_at place.now number (plain_catches catches.now) (EBranch (plain_expr test.now) holds other) running.old) }
{
    match value(place, test, running)? {
        Outcome::Value(value) => {
            if take_truth(value) {
                Ok(Turn::Goes(holds))
            } else {
                Ok(Turn::Goes(other))
            }
        }
        Outcome::Failed(failure) => Ok(fall(catches, failure)),
    }
}

/// Takes the step of a call or of a creation, and looks for room for one more frame; or tells the
/// failure.
fn wait(place: &Place<'_>, steps: &mut u32) -> Result<Option<Failure>, AllocError>
    ensures { IfOk result (λ failed. Waited failed place.now steps.old steps.new) }
{
    if let Some(failure) = take_step(place.alloc, steps)? {
        return Ok(Some(failure));
    }
    if place.depth < DEPTH_LIMIT {
        return Ok(None);
    }
    Ok(Some(bare_failure(place.alloc, RECURSION_ERROR)?))
}

/// Calls a method of an entity.
fn ask_entity(
    place: &Place<'_>,
    number: u32,
    to: Ref,
    args: Values,
    catches: &[Catch],
    running: &mut Running,
) -> Result<Turn, AllocError>
    ensures { (called : ℕ) → TurnsAs result running.new (asking_at place.now number (plain_catches catches.now) (key_of to) called args running.old) }
{
    match wait(place, &mut running.steps) {
        Ok(None) => Ok(Turn::Ends(Part::Asks {
            to,
            args,
            block: number,
        })),
        Ok(Some(failure)) => {
            drop(to);
            drop(args);
            Ok(fall(catches, failure))
        }
        Err(error) => {
            drop(to);
            drop(args);
            Err(error)
        }
    }
}

/// Calls a method of the entity that a value is.
fn ask(
    place: &Place<'_>,
    number: u32,
    on: Value,
    args: Values,
    catches: &[Catch],
    running: &mut Running,
) -> Result<Turn, AllocError>
    ensures { (called : ℕ) → TurnsAs result running.new (asking_at place.now number (plain_catches catches.now) (key_in on) called args running.old) }
{
    let to = target_entity(place.alloc, &on);
    drop(on);
    match to {
        Ok(to) => ask_entity(place, number, to, args, catches, running),
        Err(error) => {
            drop(args);
            Err(error)
        }
    }
}

/// A call of a method of an entity.
fn call(
    place: &Place<'_>,
    number: u32,
    on: &Expr,
    args: &Exprs,
    catches: &[Catch],
    running: &mut Running,
) -> Result<Turn, AllocError>
    ensures { CallsAs result place.now number (plain_catches catches.now) (plain_expr on.now) (exprs_of (plain_exprs args.now)) running.old running.new }
{
    match call_parts(place, on, args, running)? {
        CallParts::Given(on, args) => ask(place, number, on, args, catches, running),
        CallParts::Failed(failure) => Ok(fall(catches, failure)),
    }
}

/// Wants an entity of a class.
fn want(
    place: &Place<'_>,
    number: u32,
    class: u32,
    args: Values,
    catches: &[Catch],
    running: &mut Running,
) -> Result<Turn, AllocError>
    ensures { TurnsAs result running.new (wanting_at place.now number (plain_catches catches.now) class args running.old) }
{
    match wait(place, &mut running.steps) {
        Ok(None) => Ok(Turn::Ends(Part::Wants {
            class,
            args,
            block: number,
        })),
        Ok(Some(failure)) => {
            drop(args);
            Ok(fall(catches, failure))
        }
        Err(error) => {
            drop(args);
            Err(error)
        }
    }
}

/// A creation.
fn make(
    place: &Place<'_>,
    number: u32,
    class: u32,
    args: &Exprs,
    catches: &[Catch],
    running: &mut Running,
) -> Result<Turn, AllocError>
    ensures { MakesAs result place.now number (plain_catches catches.now) class (exprs_of (plain_exprs args.now)) running.old running.new }
{
    match all_values(place, args.as_slice(), running)? {
        All::Given(args) => want(place, number, class, args, catches, running),
        All::Failed(failure) => Ok(fall(catches, failure)),
    }
}

/// The end of the block of this number.
fn run_end(
    place: &Place<'_>,
    number: u32,
    end: &End,
    catches: &[Catch],
    running: &mut Running,
) -> Result<Turn, AllocError>
    ensures { TurnsAs result running.new (ending_at place.now number (plain_catches catches.now) (plain_end end.now) running.old) }
{
    match end {
        End::Jump(to) => Ok(Turn::Goes(*to)),
        End::Branch(test, holds, other) => {
            branch(place, number, test, *holds, *other, catches, running)
        }
        End::Leave => Ok(Turn::Ends(Part::Gave(Value::Nil))),
        End::Call { on, args, .. } => call(place, number, on, args, catches, running),
        End::Make { class, args, .. } => make(place, number, *class, args, catches, running),
    }
}

/// The items of the block of this number, and then its end.
pub(crate) fn run_block(
    place: &Place<'_>,
    number: u32,
    block: &Block,
    running: &mut Running,
) -> Result<Turn, AllocError>
    ensures { TurnsAs result running.new (block_at place.now number (plain_block block.now) running.old) }
{
    match run_items(place, block.code.as_slice(), running)? {
        Ended::On => run_end(place, number, &block.end, block.catches.as_slice(), running),
        Ended::Returned(value) => Ok(Turn::Ends(Part::Gave(value))),
        Ended::Failed(failure) => Ok(fall(block.catches.as_slice(), failure)),
    }
}
