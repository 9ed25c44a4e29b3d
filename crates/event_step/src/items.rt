//! The items of a block, in turn.

ghost use Rattle.std.specs.Prelude.{◌≡◌, IfOk, option_map};
ghost use Rattle.py_tree.specs.PlainExpressions.{plain_expr};
ghost use Rattle.py_tree.specs.PlainStatements.{plain_option, plain_stmts, stmts_of};
ghost use Rattle.block_code.specs.PlainBlocks.{IMark, ISet, IPut, IGive, IFail, ICode, plain_item, plain_items};
ghost use Rattle.event_step.specs.ItemEnds.{EndsNow, item_at, items_at};

use crate::method::{Place, Running, take_step};
use crate::values::value;
use block_code::Item;
use py_tree::{Expr, Name, Stmts};
use sf_value::{Failure, Outcome};
use source_meaning::{Ended, assign_field, assign_local, bare_failure, run_here, take_text};
use std::alloc::AllocError;

/// Takes one step.
fn mark(place: &Place<'_>, running: &mut Running) -> Result<Ended, AllocError>
    ensures { IfOk result (λ ended. EndsNow ended running.new (item_at place.now IMark running.old)) }
{
    match take_step(place.alloc, &mut running.steps)? {
        None => Ok(Ended::On),
        Some(failure) => Ok(Ended::Failed(failure)),
    }
}

/// Assigns a local or a temporary.
fn set(
    place: &Place<'_>,
    name: Name,
    expr: &Expr,
    running: &mut Running,
) -> Result<Ended, AllocError>
    ensures { IfOk result (λ ended. EndsNow ended running.new (item_at place.now (ISet name.0 (plain_expr expr.now)) running.old)) }
{
    match value(place, expr, running)? {
        Outcome::Value(value) => {
            assign_local(place.alloc, &mut running.vars, name, value)?;
            Ok(Ended::On)
        }
        Outcome::Failed(failure) => Ok(Ended::Failed(failure)),
    }
}

/// Assigns a field of the own entity.
fn put(
    place: &Place<'_>,
    name: Name,
    expr: &Expr,
    running: &mut Running,
) -> Result<Ended, AllocError>
    ensures { IfOk result (λ ended. EndsNow ended running.new (item_at place.now (IPut name.0 (plain_expr expr.now)) running.old)) }
{
    match value(place, expr, running)? {
        Outcome::Value(value) => {
            assign_field(
                place.program,
                place.me.class,
                &mut running.held,
                name,
                value,
            );
            running.wrote = true;
            Ok(Ended::On)
        }
        Outcome::Failed(failure) => Ok(Ended::Failed(failure)),
    }
}

/// Returns a value.
fn give(place: &Place<'_>, expr: &Expr, running: &mut Running) -> Result<Ended, AllocError>
    ensures { IfOk result (λ ended. EndsNow ended running.new (item_at place.now (IGive (plain_expr expr.now)) running.old)) }
{
    match value(place, expr, running)? {
        Outcome::Value(value) => Ok(Ended::Returned(value)),
        Outcome::Failed(failure) => Ok(Ended::Failed(failure)),
    }
}

/// Fails with a kind and a message, which is empty where none is written.
#[tactic(auto, unfolding(program_meaning::specs::Execution::message))]
fn fail(
    place: &Place<'_>,
    kind: u8,
    note: &Option<Expr>,
    running: &mut Running,
) -> Result<Ended, AllocError>
    ensures { IfOk result (λ ended. EndsNow ended running.new (item_at place.now (IFail kind (plain_option plain_expr note.now)) running.old)) }
{
    let Some(expr) = note else {
        return Ok(Ended::Failed(bare_failure(place.alloc, kind)?));
    };
    match value(place, expr, running)? {
        Outcome::Value(value) => {
            let message = take_text(place.alloc, value)?;
            Ok(Ended::Failed(Failure { kind, message }))
        }
        Outcome::Failed(failure) => Ok(Ended::Failed(failure)),
    }
}

/// Runs statements.
fn run_code(place: &Place<'_>, code: &Stmts, running: &mut Running) -> Result<Ended, AllocError>
    ensures { IfOk result (λ ended. EndsNow ended running.new (item_at place.now (ICode (stmts_of (plain_stmts code.now))) running.old)) }
{
    let ended = run_here(
        place.alloc,
        place.program,
        &mut running.held,
        &mut running.vars,
        place.me,
        code,
        &mut running.wrote,
        &mut running.steps,
        place.depth,
    )?;
    Ok(ended)
}

fn run_item(place: &Place<'_>, item: &Item, running: &mut Running) -> Result<Ended, AllocError>
    ensures { IfOk result (λ ended. EndsNow ended running.new (item_at place.now (plain_item item.now) running.old)) }
{
    match item {
        Item::Mark => mark(place, running),
        Item::Set(name, expr) => set(place, *name, expr, running),
        Item::Put(name, expr) => put(place, *name, expr, running),
        Item::Give(expr) => give(place, expr, running),
        Item::Fail(kind, note) => fail(place, *kind, note, running),
        Item::Code(code) => run_code(place, code, running),
    }
}

/// Runs items in their order, until one doesn't go on.
pub(crate) fn run_items(
    place: &Place<'_>,
    items: &[Item],
    running: &mut Running,
) -> Result<Ended, AllocError>
    ensures { IfOk result (λ ended. EndsNow ended running.new (items_at place.now (plain_items items.now) running.old)) }
{
    for item in items {
        match run_item(place, item, running)? {
            Ended::On => {}
            Ended::Returned(value) => return Ok(Ended::Returned(value)),
            Ended::Failed(failure) => return Ok(Ended::Failed(failure)),
        }
    }
    Ok(Ended::On)
}
