//! A call of a method and a creation, on the record of the entity.

ghost use Rattle.std.specs.Prelude.{◌≡◌, false, Some, IfOk};
ghost use Rattle.program_meaning.specs.World.{failure};
ghost use Rattle.block_code.specs.declared.event.EventKind.TheVariants as kind;
ghost use Rattle.event_step.specs.Steps.{ComesTo, Due, IsDue, as_step, created_in, entering_in, fields_of, from_in, making_in, step_in, thrown_in};

use crate::entered::{Code, Entered};
use crate::finishing::{finish, given, thrown};
use crate::handling::Handled;
use crate::method::{Place, Running, depth_behind};
use crate::parts::run_part;
use block_code::Frames;
use sf_list::Sequence;
use sf_value::{Record, Ref, Text, Value, Values};
use source_meaning::{
    ALREADY_EXISTS, Made, NO_ENTITY, bare_failure, bind_moved, make_here, method_params,
};
use std::alloc::{AllocError, Global};
use std::mem;

/// Runs a method from the block of this number on, and tells what becomes of it.
pub(crate) fn run_from(
    code: &Code<'_>,
    entered: Entered,
    number: u32,
    running: Running,
) -> Result<Handled, AllocError>
    requires unwritten { running.wrote ≡ false }
    requires due { Due code.now entered.at.class entered.method (from_in code.now entered number running) }
    ensures { IfOk result (λ h. ComesTo (from_in code.now entered number running) (as_step h)) }
{
    let mut running = running;
    let blocks = code.graph.method(entered.at.class, entered.method);
    let place = Place {
        alloc: code.alloc,
        program: code.program,
        me: &entered.at,
        depth: depth_behind(entered.frames.len()),
    };
    match run_part(&place, blocks, number, &mut running) {
        Ok(part) => finish(code, entered, running, part),
        Err(error) => {
            drop(entered);
            drop(running);
            Err(error)
        }
    }
}

/// Enters a method of an entity that is there.
fn enter_there(
    code: &Code<'_>,
    entered: Entered,
    args: Values,
    steps: u32,
    held: Record,
) -> Result<Handled, AllocError>
    requires { Due code.now entered.at.class entered.method (entering_in code.now entered args steps (Some held.fields)) }
    ensures { IfOk result (λ h. ComesTo (entering_in code.now entered args steps (Some held.fields)) (as_step h)) }
{
    let params = method_params(code.program, entered.at.class, entered.method);
    match bind_moved(code.alloc, params, args) {
        Ok(vars) => run_from(
            code,
            entered,
            0,
            Running {
                held,
                wrote: false,
                vars,
                steps,
            },
        ),
        Err(error) => {
            drop(entered);
            drop(held);
            Err(error)
        }
    }
}

/// An event that fails before it does anything.
fn refused(
    code: &Code<'_>,
    tx: u32,
    frames: Frames,
    steps: u32,
    held: Option<Record>,
    kind: u8,
) -> Result<Handled, AllocError>
    ensures { IfOk result (λ h. h ≡ record { held = held; wrote = false; next = thrown_in code.now.graph.now tx frames (failure kind) steps }) }
{
    match bare_failure(code.alloc, kind) {
        Ok(failure) => Ok(Handled {
            held,
            wrote: false,
            next: thrown(code.graph, tx, frames, failure, steps),
        }),
        Err(error) => {
            drop(frames);
            drop(held);
            Err(error)
        }
    }
}

/// Enters a method of an entity.
fn enter(
    code: &Code<'_>,
    entered: Entered,
    args: Values,
    steps: u32,
    held: Option<Record>,
) -> Result<Handled, AllocError>
    requires { Due code.now entered.at.class entered.method (entering_in code.now entered args steps (fields_of held)) }
    ensures { IfOk result (λ h. ComesTo (entering_in code.now entered args steps (fields_of held)) (as_step h)) }
{
    match held {
        Some(held) => enter_there(code, entered, args, steps, held),
        None => {
            drop(args);
            let Entered {
                at,
                method: _,
                tx,
                frames,
            } = entered;
            drop(at);
            refused(code, tx, frames, steps, None, NO_ENTITY)
        }
    }
}

/// Makes an entity that isn't there.
fn make_new(
    code: &Code<'_>,
    to: Ref,
    args: Values,
    tx: u32,
    frames: Frames,
    steps: u32,
) -> Result<Handled, AllocError>
    ensures { IfOk result (λ h. as_step h ≡ created_in code.now to args tx frames steps) }
{
    let mut steps = steps;
    let made = make_here(code.alloc, code.program, &to, &args, &mut steps);
    drop(args);
    match made {
        Ok(Made::Record(held)) => Ok(Handled {
            held: Some(held),
            wrote: true,
            next: given(tx, frames, Value::Entity(to), steps),
        }),
        Ok(Made::Failed(failure)) => {
            drop(to);
            Ok(Handled {
                held: None,
                wrote: false,
                next: thrown(code.graph, tx, frames, failure, steps),
            })
        }
        Err(error) => {
            drop(to);
            drop(frames);
            Err(error)
        }
    }
}

/// Makes an entity.
fn make(
    code: &Code<'_>,
    to: Ref,
    args: Values,
    tx: u32,
    frames: Frames,
    steps: u32,
    held: Option<Record>,
) -> Result<Handled, AllocError>
    ensures { IfOk result (λ h. ComesTo (making_in code.now to args tx frames steps (fields_of held)) (as_step h)) }
{
    match held {
        None => make_new(code, to, args, tx, frames, steps),
        Some(held) => {
            drop(to);
            drop(args);
            refused(code, tx, frames, steps, Some(held), ALREADY_EXISTS)
        }
    }
}

/// Moves an entity out, and leaves one that is none.
fn take_ref(alloc: Global, at: &mut Ref) -> Result<Ref, AllocError>
    ensures { IfOk result (λ taken. taken ≡ at.old) }
{
    let empty = Text::of(alloc, "")?;
    let key = mem::replace(&mut at.key, empty);
    Ok(Ref {
        class: at.class,
        key,
    })
}

/// Moves values out, and leaves none.
pub(crate) fn take_values(alloc: Global, values: &mut Values) -> Values
    ensures { result ≡ values.old }
{
    mem::replace(values, Sequence::new(alloc))
}

/// Enters a method, whose entity and arguments are moved out.
pub(crate) fn enter_taken(
    code: &Code<'_>,
    to: &mut Ref,
    method: u32,
    args: Values,
    tx: u32,
    frames: Frames,
    steps: u32,
    held: Option<Record>,
) -> Result<Handled, AllocError>
    requires { IsDue code.now (kind.Enter to.old method args) tx frames steps (fields_of held) }
    ensures { IfOk result (λ h. ComesTo (step_in code.now (kind.Enter to.old method args) tx frames steps (fields_of held)) (as_step h)) }
{
    match take_ref(code.alloc, to) {
        Ok(at) => {
            let entered = Entered {
                at,
                method,
                tx,
                frames,
            };
            enter(code, entered, args, steps, held)
        }
        Err(error) => {
            drop(args);
            drop(frames);
            drop(held);
            Err(error)
        }
    }
}

/// Makes an entity, which is moved out.
pub(crate) fn make_taken(
    code: &Code<'_>,
    to: &mut Ref,
    args: Values,
    tx: u32,
    frames: Frames,
    steps: u32,
    held: Option<Record>,
) -> Result<Handled, AllocError>
    ensures { IfOk result (λ h. ComesTo (step_in code.now (kind.Make to.old args) tx frames steps (fields_of held)) (as_step h)) }
{
    match take_ref(code.alloc, to) {
        Ok(to) => make(code, to, args, tx, frames, steps, held),
        Err(error) => {
            drop(args);
            drop(frames);
            drop(held);
            Err(error)
        }
    }
}
