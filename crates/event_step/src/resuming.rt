//! What waited goes on, with a result or with a failure.

ghost use Rattle.std.specs.Prelude.{Some, IfOk};
ghost use Rattle.program_meaning.specs.World.{failure};
ghost use Rattle.event_step.specs.Steps.{ComesTo, Due, DueToResume, as_step, catching_in, going_on_in, resuming_in};

use crate::blocks::{awaited, catch_of};
use crate::entered::{Code, Entered};
use crate::entering::run_from;
use crate::frames::pop_frame;
use crate::handling::Handled;
use crate::method::Running;
use block_code::{Frame, Frames};
use sf_value::{Failure, Outcome, Record, Value};
use source_meaning::assign_local;
use std::alloc::AllocError;

/// A frame goes on with a value.
fn go_on(
    code: &Code<'_>,
    last: Frame,
    value: Value,
    tx: u32,
    frames: Frames,
    steps: u32,
    held: Record,
) -> Result<Handled, AllocError>
    requires { Due code.now last.at.class last.method (going_on_in code.now last value tx frames steps held.fields) }
    ensures { IfOk result (λ h. ComesTo (going_on_in code.now last value tx frames steps held.fields) (as_step h)) }
{
    let Some(block) = code.graph.block(last.at.class, last.method, last.block) else {
        // a frame waits at a block that is there
        unreachable!()
    };
    let Some(awaits) = awaited(&block.end) else {
        // and that waits at its end
        unreachable!()
    };
    let Frame {
        at,
        method,
        block: _,
        vars,
    } = last;
    let mut vars = vars;
    let entered = Entered {
        at,
        method,
        tx,
        frames,
    };
    match assign_local(code.alloc, &mut vars, awaits.into, value) {
        Ok(()) => run_from(
            code,
            entered,
            awaits.after,
            Running {
                held,
                wrote: false,
                vars,
                steps,
            },
        ),
        Err(error) => {
            drop(entered);
            drop(vars);
            drop(held);
            Err(error)
        }
    }
}

/// A frame goes on with a failure that a catch of its block names.
fn go_on_failed(
    code: &Code<'_>,
    last: Frame,
    failure: Failure,
    tx: u32,
    frames: Frames,
    steps: u32,
    held: Record,
) -> Result<Handled, AllocError>
    requires { Due code.now last.at.class last.method (catching_in code.now last failure tx frames steps held.fields) }
    ensures { IfOk result (λ h. ComesTo (catching_in code.now last failure tx frames steps held.fields) (as_step h)) }
{
    let Some(block) = code.graph.block(last.at.class, last.method, last.block) else {
        // a frame waits at a block that is there
        unreachable!()
    };
    let Some(to) = catch_of(block.catches.as_slice(), failure.kind) else {
        // a failure resumes a frame whose block catches it
        unreachable!()
    };
    drop(failure);
    let Frame {
        at,
        method,
        block: _,
        vars,
    } = last;
    let entered = Entered {
        at,
        method,
        tx,
        frames,
    };
    run_from(
        code,
        entered,
        to,
        Running {
            held,
            wrote: false,
            vars,
            steps,
        },
    )
}

/// The last frame goes on with a result.
pub(crate) fn resume(
    code: &Code<'_>,
    outcome: Outcome,
    tx: u32,
    frames: Frames,
    steps: u32,
    held: Record,
) -> Result<Handled, AllocError>
    requires { DueToResume code.now frames (resuming_in code.now outcome tx frames steps (Some held.fields)) }
    ensures { IfOk result (λ h. ComesTo (resuming_in code.now outcome tx frames steps (Some held.fields)) (as_step h)) }
{
    let mut frames = frames;
    let Some(last) = pop_frame(&mut frames) else {
        // a result resumes a frame
        unreachable!()
    };
    match outcome {
        Outcome::Value(value) => go_on(code, last, value, tx, frames, steps, held),
        Outcome::Failed(failure) => go_on_failed(code, last, failure, tx, frames, steps, held),
    }
}
