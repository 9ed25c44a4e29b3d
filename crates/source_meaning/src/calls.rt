//! The direct interpreter: calls of methods and of functions.

ghost use Rattle.std.specs.Prelude.{◌≤◌, [], option_map};
ghost use Rattle.py_tree.specs.PlainStatements.{stmts_of};
ghost use Rattle.py_tree.specs.PlainProgram.{plain_method};
ghost use Rattle.py_tree.specs.ClassRules.{body_of};
ghost use Rattle.py_tree.specs.ExpressionTypes.{function_of as the_function_of};
ghost use Rattle.py_tree.specs.Bounded.{most_nodes, stmts_size};
ghost use Rattle.sf_value.specs.Keys.{Key, key_of};
ghost use Rattle.program_meaning.specs.Evaluation.{applied as the_applied};
ghost use Rattle.source_meaning.specs.Sites.{site_of};
ghost use Rattle.source_meaning.specs.Walks.{Agrees, values_of, called, open_calls, own_calls, entered, body_run, applied_with};

use crate::Stop;
use crate::creations::make;
use crate::direct::{take_step, target_class, target_entity};
use crate::expressions::evaluate_all;
use crate::failures::{NO_ENTITY, RECURSION_ERROR, fail};
use crate::in_place::own_length;
use crate::operations::give;
use crate::run::Run;
use crate::site::{Room, Site};
use crate::statements::{Flow, execute_all};
use crate::tables::{body, class_number, method_at, method_number, params};
use crate::vars::bind;
use program_meaning::Vars;
use py_tree::{Expr, Method, Name, function_of};
use sf_list::TryClone;
use sf_value::{Ref, Value, Values};

/// Calls a method of the entity that a value is.
#[cycle(walk)]
#[inline(never)]
pub(crate) fn call(
    site: &Site<'_>,
    on: &Value,
    name: Name,
    args: &Values,
    run: &mut Run,
) -> Result<Value, Stop>
    ensures { Agrees result site.now run.old run.new (called site.now on.now name.0 args.now) }
{
    let number = method_number(site.program, target_class(on), name);
    match site.room {
        Room::Closed => Err(fail(site.alloc, RECURSION_ERROR)),
        Room::Within(left) => call_own(site, left, number, args, run),
        Room::Open(left) => {
            let at = target_entity(site.alloc, on)?;
            let given = call_entity(site, left, &at, number, args, run);
            drop(at);
            given
        }
    }
}

/// Calls a method of the own entity, where so many more calls may be open.
#[cycle(walk)]
#[inline(never)]
fn call_own(
    site: &Site<'_>,
    left: u32,
    number: u32,
    args: &Values,
    run: &mut Run,
) -> Result<Value, Stop>
    ensures { (at : Key) → Agrees result site.now run.old run.new ((own_calls site.now left).call at number args.now) }
{
    take_step(site.alloc, &mut run.steps)?;
    let Some(left) = left.checked_sub(1) else {
        return Err(fail(site.alloc, RECURSION_ERROR));
    };
    let within = Site {
        alloc: site.alloc,
        program: site.program,
        state: site.state,
        me: site.me,
        fields: site.fields,
        room: Room::Within(left),
    };
    let method = method_at(site.program, site.me.class, number);
    run_body(&within, method, args, run)
}

/// Calls a method of an entity, where so many more calls may be open.
#[cycle(walk)]
#[inline(never)]
pub(crate) fn call_entity(
    site: &Site<'_>,
    left: u32,
    at: &Ref,
    number: u32,
    args: &Values,
    run: &mut Run,
) -> Result<Value, Stop>
    ensures { Agrees result site.now run.old run.new ((open_calls site.now left).call (key_of at.now) number args.now) }
{
    take_step(site.alloc, &mut run.steps)?;
    let Some(left) = left.checked_sub(1) else {
        return Err(fail(site.alloc, RECURSION_ERROR));
    };
    enter(site, left, at, number, args, run)
}

/// Reads the entity, and runs the method on it.
#[cycle(walk)]
#[inline(never)]
fn enter(
    site: &Site<'_>,
    left: u32,
    at: &Ref,
    number: u32,
    args: &Values,
    run: &mut Run,
) -> Result<Value, Stop>
    ensures { Agrees result site.now run.old run.new (entered site.now left (key_of at.now) number args.now) }
{
    run.tx.mark_read(at.try_clone(site.alloc)?)?;
    if !run.tx.contains(site.state, at) {
        return Err(fail(site.alloc, NO_ENTITY));
    }
    let inside = Site {
        alloc: site.alloc,
        program: site.program,
        state: site.state,
        me: at,
        fields: site.program.fields(at.class),
        room: Room::Open(left),
    };
    let method = method_at(site.program, at.class, number);
    run_body(&inside, method, args, run)
}

/// Runs the body of a method. One that falls off its end gives None.
#[cycle(walk)]
#[inline(never)]
fn run_body(
    site: &Site<'_>,
    method: Option<&Method>,
    args: &Values,
    run: &mut Run,
) -> Result<Value, Stop>
    requires { stmts_size (stmts_of (body_of (option_map (λ m. plain_method m.now) method))) ≤ most_nodes }
    ensures { Agrees result site.now run.old run.new (body_run site.now method.entry args.now) }
{
    let mut vars = bind(site.alloc, params(method), args)?;
    let ended = execute_all(site, body(method), &mut vars, run);
    drop(vars);
    match ended? {
        Flow::Gave(value) => Ok(value),
        Flow::On | Flow::Broke | Flow::Continued => Ok(Value::Nil),
    }
}

/// `f(args)`. The length of what stands in a local or in an own field is told without a copy.
#[cycle(walk)]
#[inline(never)]
pub(crate) fn application(
    site: &Site<'_>,
    name: Name,
    args: &[Expr],
    vars: &Vars,
    run: &mut Run,
) -> Result<Value, Stop>
    ensures { Agrees result site.now run.old run.new (applied_with site.now name.0 (values_of site.now args.now [] vars.now)) }
{
    if let Some(length) = own_length(site, name, args, vars, &run.tx) {
        return length;
    }
    let args = evaluate_all(site, args, vars, run)?;
    let given = apply(site, name, &args, run);
    drop(args);
    given
}

/// What a function or a creation makes of its arguments, a creation where the name is no function's.
#[cycle(walk)]
#[inline(never)]
fn apply(site: &Site<'_>, name: Name, args: &Values, run: &mut Run) -> Result<Value, Stop>
    ensures { Agrees result site.now run.old run.new (the_applied (site_of site.now) (the_function_of name.0) name.0 args.now) }
{
    match function_of(name) {
        Some(function) => give(site.alloc, function, args),
        None => make(site, class_number(site.program, name), args, run),
    }
}
