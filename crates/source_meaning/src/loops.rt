//! The direct interpreter: the turns of `while` and of `for`.

ghost use Rattle.py_tree.specs.PlainExpressions.{plain_expr};
ghost use Rattle.py_tree.specs.PlainStatements.{PItems, plain_option, plain_over};
ghost use Rattle.program_meaning.specs.Execution.{start_of as the_start_of};
ghost use Rattle.source_meaning.specs.Sites.{site_of};
ghost use Rattle.source_meaning.specs.Walks.{Agrees, EndsAs, turned_while, range_of, turned, turned_over, turned_from};

use crate::Stop;
use crate::direct::take_step;
use crate::expressions::evaluate;
use crate::failures::{STEP_LIMIT, fail};
use crate::operations::{items, take_number, take_truth};
use crate::run::Run;
use crate::site::Site;
use crate::statements::{Flow, execute_all};
use crate::vars::assign_local;
use program_meaning::Vars;
use py_tree::{Expr, Name, Over, Stmt};
use sf_list::TryClone;
use sf_value::Value;

/// What each turn of a `for` binds and runs.
#[derive(Drop)]
pub(crate) struct Turn<'a> {
    pub(crate) name: Name,
    pub(crate) body: &'a [Stmt],
}

/// The turns of a `while`. Each takes a step, so one more than there are steps is enough.
#[cycle(walk)]
#[inline(never)]
pub(crate) fn while_turns(
    site: &Site<'_>,
    test: &Expr,
    body: &[Stmt],
    vars: &mut Vars,
    run: &mut Run,
) -> Result<Flow, Stop>
    ensures { EndsAs result vars.new site.now run.old run.new (turned_while site.now test.now body.now vars.old) }
{
    let limit = u64::from(run.steps) + 1;
    for _turn in 0..limit {
        if !take_truth(evaluate(site, test, vars, run)?) {
            return Ok(Flow::On);
        }
        take_step(site.alloc, &mut run.steps)?;
        match execute_all(site, body, vars, run)? {
            Flow::On | Flow::Continued => {}
            Flow::Broke => return Ok(Flow::On),
            Flow::Gave(value) => return Ok(Flow::Gave(value)),
        }
    }
    Err(fail(site.alloc, STEP_LIMIT))
}

/// A `for` over a list, or over numbers.
#[cycle(walk)]
#[inline(never)]
pub(crate) fn execute_for(
    site: &Site<'_>,
    turn: &Turn<'_>,
    over: &Over,
    vars: &mut Vars,
    run: &mut Run,
) -> Result<Flow, Stop>
    ensures { EndsAs result vars.new site.now run.old run.new (turned site.now turn.now (plain_over over.now) vars.old) }
{
    match over {
        Over::Items(list) => for_items(site, turn, list, vars, run),
        Over::Range(start, end) => for_numbers(site, turn, start, end, vars, run),
    }
}

/// A `for` over a list.
#[cycle(walk)]
#[tactic(auto, unfolding(program_meaning::specs::Execution::turns_of))]
#[inline(never)]
fn for_items(
    site: &Site<'_>,
    turn: &Turn<'_>,
    list: &Expr,
    vars: &mut Vars,
    run: &mut Run,
) -> Result<Flow, Stop>
    ensures { EndsAs result vars.new site.now run.old run.new (turned site.now turn.now (PItems (plain_expr list.now)) vars.old) }
{
    let list = evaluate(site, list, vars, run)?;
    let ended = over_items(site, turn, items(&list), vars, run);
    drop(list);
    ended
}

/// A `for` over numbers.
#[cycle(walk)]
#[tactic(auto, unfolding(program_meaning::specs::Execution::turns_of))]
#[inline(never)]
fn for_numbers(
    site: &Site<'_>,
    turn: &Turn<'_>,
    start: &Option<Expr>,
    end: &Expr,
    vars: &mut Vars,
    run: &mut Run,
) -> Result<Flow, Stop>
    ensures { EndsAs result vars.new site.now run.old run.new (turned site.now turn.now (range_of start.now end.now) vars.old) }
{
    let from = take_number(start_of(site, start, vars, run)?);
    let to = take_number(evaluate(site, end, vars, run)?);
    over_numbers(site, turn, from, to, vars, run)
}

/// Where a range starts, 0 where nothing is written.
#[cycle(walk)]
#[tactic(auto, unfolding(program_meaning::specs::Execution::start_of))]
#[inline(never)]
fn start_of(
    site: &Site<'_>,
    start: &Option<Expr>,
    vars: &Vars,
    run: &mut Run,
) -> Result<Value, Stop>
    ensures { Agrees result site.now run.old run.new (the_start_of (site_of site.now) (plain_option plain_expr start.now) vars.now) }
{
    match start {
        Some(expr) => evaluate(site, expr, vars, run),
        None => Ok(Value::Int(0)),
    }
}

/// A turn for each item of a list.
#[cycle(walk)]
#[inline(never)]
fn over_items(
    site: &Site<'_>,
    turn: &Turn<'_>,
    values: &[Value],
    vars: &mut Vars,
    run: &mut Run,
) -> Result<Flow, Stop>
    ensures { EndsAs result vars.new site.now run.old run.new (turned_over site.now turn.now values.now vars.old) }
{
    for value in values {
        take_step(site.alloc, &mut run.steps)?;
        assign_local(site.alloc, vars, turn.name, value.try_clone(site.alloc)?)?;
        match execute_all(site, turn.body, vars, run)? {
            Flow::On | Flow::Continued => {}
            Flow::Broke => return Ok(Flow::On),
            Flow::Gave(value) => return Ok(Flow::Gave(value)),
        }
    }
    Ok(Flow::On)
}

/// A turn for each number from one up to another. Each takes a step, so one more than there are steps is enough.
#[cycle(walk)]
#[inline(never)]
fn over_numbers(
    site: &Site<'_>,
    turn: &Turn<'_>,
    from: i128,
    to: i128,
    vars: &mut Vars,
    run: &mut Run,
) -> Result<Flow, Stop>
    ensures { EndsAs result vars.new site.now run.old run.new (turned_from site.now turn.now from to vars.old) }
{
    let limit = u64::from(run.steps) + 1;
    let mut at = from;
    for _turn in 0..limit {
        if at >= to {
            return Ok(Flow::On);
        }
        take_step(site.alloc, &mut run.steps)?;
        assign_local(site.alloc, vars, turn.name, Value::Int(at))?;
        match execute_all(site, turn.body, vars, run)? {
            Flow::On | Flow::Continued => {}
            Flow::Broke => return Ok(Flow::On),
            Flow::Gave(value) => return Ok(Flow::Gave(value)),
        }
        at += 1;
    }
    Err(fail(site.alloc, STEP_LIMIT))
}
