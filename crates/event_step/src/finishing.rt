//! How a method that runs comes to its end, and the event that follows.

ghost use Rattle.std.specs.Prelude.{◌≡◌, ◌++◌, ◌∷◌, [], IfOk};
ghost use Rattle.program_meaning.specs.World.{failure};
ghost use Rattle.block_code.specs.GraphViews.{graph_tables, graph_blocks};
ghost use Rattle.event_step.specs.declared.method.Part.TheVariants as part;
ghost use Rattle.event_step.specs.Steps.{CallsThere, FinishFits, FinishesAs, frame_in, given_now, handled_failed, handled_given, handled_waiting, thrown_in};

use crate::entered::{Code, Entered};
use crate::frames::{drop_to_catch, kept_there, resumed};
use crate::handling::Handled;
use crate::method::{Part, Running};
use block_code::{End, Event, EventKind, Frame, Frames, Graph};
use program_meaning::Vars;
use sf_value::{Failure, Outcome, Ref, Value, Values};
use source_meaning::new_entity;
use std::alloc::AllocError;

/// The event that follows a value.
pub(crate) fn given(tx: u32, frames: Frames, value: Value, steps: u32) -> Event
    ensures { result ≡ given_now tx frames value steps }
{
    let kind = resumed(&frames, Outcome::Value(value));
    Event {
        tx,
        steps,
        frames,
        kind,
    }
}

/// The event that follows a failure.
pub(crate) fn thrown(graph: &Graph, tx: u32, frames: Frames, failure: Failure, steps: u32) -> Event
    ensures { result ≡ thrown_in graph.now tx frames failure steps }
{
    let mut frames = frames;
    drop_to_catch(graph, &mut frames, &failure);
    let kind = resumed(&frames, Outcome::Failed(failure));
    Event {
        tx,
        steps,
        frames,
        kind,
    }
}

/// The frames with one more, of this method that waits at the end of the block of this number.
fn waiting(code: &Code<'_>, entered: Entered, number: u32, vars: Vars) -> Result<Frames, AllocError>
    ensures { IfOk result (λ frames. frames ≡ entered.frames ++ frame_in code.now entered number vars ∷ []) }
{
    let blocks = code.graph.method(entered.at.class, entered.method);
    let Entered {
        at,
        method,
        tx: _,
        frames,
    } = entered;
    let mut frames = frames;
    let vars = match kept_there(code.alloc, blocks, number, vars) {
        Ok(vars) => vars,
        Err(error) => {
            drop(at);
            drop(frames);
            return Err(error);
        }
    };
    let frame = Frame {
        at,
        method,
        block: number,
        vars,
    };
    match frames.push(code.alloc, frame) {
        Ok(()) => Ok(frames),
        Err(error) => {
            drop(frames);
            Err(error)
        }
    }
}

/// The number of the method that the block of this number calls at its end.
fn called_method(graph: &Graph, class: u32, method: u32, number: u32) -> u32
    requires { CallsThere (graph_tables graph.now) (graph_blocks graph.now) class method number }
    ensures { (c : CallsThere (graph_tables graph.now) (graph_blocks graph.now) class method number) → result ≡ c.called }
{
    match graph.block(class, method, number) {
        Some(block) => match &block.end {
            End::Call { method, .. } => *method,
            // the block ends with a call
            _ => unreachable!(),
        },
        // the block is there
        None => unreachable!(),
    }
}

/// The method has given a value.
fn finish_given(entered: Entered, running: Running, value: Value) -> Handled
    ensures { result ≡ handled_given entered running value }
{
    let Running {
        held,
        wrote,
        vars,
        steps,
    } = running;
    drop(vars);
    let Entered {
        at,
        method: _,
        tx,
        frames,
    } = entered;
    drop(at);
    Handled {
        held: Some(held),
        wrote,
        next: given(tx, frames, value, steps),
    }
}

/// The method has failed.
fn finish_failed(graph: &Graph, entered: Entered, running: Running, failure: Failure) -> Handled
    ensures { result ≡ handled_failed graph.now entered running failure }
{
    let Running {
        held,
        wrote,
        vars,
        steps,
    } = running;
    drop(vars);
    let Entered {
        at,
        method: _,
        tx,
        frames,
    } = entered;
    drop(at);
    Handled {
        held: Some(held),
        wrote,
        next: thrown(graph, tx, frames, failure, steps),
    }
}

/// The method waits at the end of the block of this number, and this is asked for.
fn finish_waiting(
    code: &Code<'_>,
    entered: Entered,
    running: Running,
    number: u32,
    kind: EventKind,
) -> Result<Handled, AllocError>
    ensures { IfOk result (λ h. h ≡ handled_waiting code.now entered running number kind) }
{
    let Running {
        held,
        wrote,
        vars,
        steps,
    } = running;
    let tx = entered.tx;
    match waiting(code, entered, number, vars) {
        Ok(frames) => Ok(Handled {
            held: Some(held),
            wrote,
            next: Event {
                tx,
                steps,
                frames,
                kind,
            },
        }),
        Err(error) => {
            drop(held);
            drop(kind);
            Err(error)
        }
    }
}

/// The method calls one of another entity.
fn finish_call(
    code: &Code<'_>,
    entered: Entered,
    running: Running,
    to: Ref,
    args: Values,
    number: u32,
) -> Result<Handled, AllocError>
    requires { FinishFits code.now entered running (part.Asks to args number) }
    ensures { FinishesAs result code.now entered running (part.Asks to args number) }
{
    let method = called_method(code.graph, entered.at.class, entered.method, number);
    let kind = EventKind::Enter { to, method, args };
    finish_waiting(code, entered, running, number, kind)
}

/// The method makes an entity.
fn finish_creation(
    code: &Code<'_>,
    entered: Entered,
    running: Running,
    class: u32,
    args: Values,
    number: u32,
) -> Result<Handled, AllocError>
    ensures { FinishesAs result code.now entered running (part.Wants class args number) }
{
    match new_entity(code.alloc, code.program, class, &args) {
        Ok(to) => finish_waiting(code, entered, running, number, EventKind::Make { to, args }),
        Err(error) => {
            drop(args);
            drop(entered);
            drop(running);
            Err(error)
        }
    }
}

/// What becomes of a part of a method.
pub(crate) fn finish(
    code: &Code<'_>,
    entered: Entered,
    running: Running,
    part: Part,
) -> Result<Handled, AllocError>
    requires { FinishFits code.now entered running part }
    ensures { FinishesAs result code.now entered running part }
{
    match part {
        Part::Gave(value) => Ok(finish_given(entered, running, value)),
        Part::Failed(failure) => Ok(finish_failed(code.graph, entered, running, failure)),
        Part::Asks { to, args, block } => finish_call(code, entered, running, to, args, block),
        Part::Wants { class, args, block } => {
            finish_creation(code, entered, running, class, args, block)
        }
    }
}
