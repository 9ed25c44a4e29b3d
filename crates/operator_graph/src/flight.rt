//! One transaction in flight: its next event is handled, and once nothing is left to do its work is made.

ghost use Rattle.std.specs.Prelude.{◌≡◌, [], true, false, Some, IfOk, OnOk, is_some};
ghost use Rattle.sf_value.specs.Keys.{key_of};
ghost use Rattle.block_code.specs.EventsFit.{EventFits};
ghost use Rattle.block_runs.specs.EventStep.{lasts, target_of};
ghost use Rattle.block_runs.specs.StepFits.{IsReady};
ghost use Rattle.event_step.specs.Steps.{as_step, fields_of};
ghost use Rattle.block_step.specs.CompiledViews.{compiled_tables, compiled_blocks, IsWhole, StepsIn};
ghost use Rattle.transaction_buffers.specs.Buffered.{seen, noted};
ghost use Rattle.transaction_steps.specs.Transactions.{is_done};
ghost use Rattle.operator_graph.specs.Stepping as spec;
ghost use Rattle.operator_graph.specs.Stepping.{CanStep, HasHandled, HasStepped, IsOfBuffers, IsSettled, HasGoneOn};

use block_code::{Event, EventKind};
use block_step::{Compiled, Handled, handle};
use event_step::target;
use keyed_state::{Keyed, Work};
use sf_list::{Sequence, TryClone};
use sf_value::{Outcome, Ref, Value};
use std::alloc::{AllocError, Global};
use std::mem;
use transaction_buffers::Buffers;

/// A transaction in flight: its next event, and what it buffers.
#[derive(Drop)]
pub(crate) struct Flight {
    pub(crate) next: Event,
    pub(crate) buffers: Buffers,
}

pub(crate) type Flights = Sequence<Flight>;

/// What events are handled on: a compiled program, the snapshot of the batch, and the operators.
#[derive(Clone, Copy, Drop)]
pub(crate) struct Dataflow<'a> {
    pub(crate) alloc: Global,
    pub(crate) compiled: &'a Compiled,
    pub(crate) state: &'a Keyed,
    /// How many operators there are for each class.
    pub(crate) parts: u32,
}

pub(crate) fn is_over(event: &Event) -> bool
    ensures { result ≡ is_done event.now.kind }
{
    matches!(event.kind, EventKind::Done(_))
}

fn has_failed(event: &Event) -> bool
    ensures { result ≡ spec.has_failed event.now.kind }
{
    matches!(event.kind, EventKind::Done(Outcome::Failed(_)))
}

/// An event that stands for none, while the one at its place is handled.
fn blank(alloc: Global) -> Event {
    Event {
        tx: 0,
        steps: 0,
        frames: Sequence::new(alloc),
        kind: EventKind::Done(Outcome::Value(Value::Nil)),
    }
}

fn copy_of_target(alloc: Global, event: &Event) -> Result<Ref, AllocError>
    requires { is_some (target_of event.now.kind (lasts event.now.frames)) ≡ true }
    ensures { IfOk result (λ at. target_of event.now.kind (lasts event.now.frames) ≡ Some at) }
{
    let Some(at) = target(event) else {
        // an event that is to be handled has a target
        unreachable!()
    };
    at.try_clone(alloc)
}

/// Handles an event on the record that is seen of its target.
fn handle_seen(
    on: &Dataflow<'_>,
    buffers: &Buffers,
    at: &Ref,
    event: Event,
) -> Result<Handled, AllocError>
    requires whole { IsWhole on.now.compiled.now }
    requires ready { IsReady (compiled_tables on.now.compiled.now) (compiled_blocks on.now.compiled.now) event
        (seen on.now.state.now.contents buffers.now (key_of at.now)) }
    ensures { IfOk result (λ h. StepsIn on.now.compiled.now event (seen on.now.state.now.contents buffers.now (key_of at.now)) (as_step h)) }
{
    let held = buffers.record(on.state, at);
    handle(on.alloc, on.compiled, held, event)
}

/// Notes what handling an event has left, and gives the next event.
fn note(
    alloc: Global,
    buffers: &mut Buffers,
    at: Ref,
    handled: Handled,
) -> Result<Event, AllocError>
    ensures noted { OnOk result (buffers.new ≡ noted buffers.old (key_of at) (fields_of handled.held) handled.wrote) }
    ensures next { IfOk result (λ next. next ≡ handled.next) }
{
    let Handled { held, wrote, next } = handled;
    match buffers.note(alloc, at, held, wrote) {
        Ok(()) => Ok(next),
        Err(error) => {
            drop(next);
            Err(error)
        }
    }
}

/// Handles an event at its target, notes what this leaves, and gives the next event.
fn handle_and_note(
    on: &Dataflow<'_>,
    buffers: &mut Buffers,
    at: Ref,
    event: Event,
) -> Result<Event, AllocError>
    requires whole { IsWhole on.now.compiled.now }
    requires ready { IsReady (compiled_tables on.now.compiled.now) (compiled_blocks on.now.compiled.now) event
        (seen on.now.state.now.contents buffers.old (key_of at)) }
    ensures { IfOk result (HasHandled on.now.compiled.now on.now.state.now.contents event at buffers.old buffers.new) }
{
    match handle_seen(on, buffers, &at, event) {
        Ok(handled) => note(on.alloc, buffers, at, handled),
        Err(error) => {
            drop(at);
            Err(error)
        }
    }
}

/// Handles the next event of a flight.
fn step(on: &Dataflow<'_>, flight: &mut Flight) -> Result<(), AllocError>
    requires whole { IsWhole on.now.compiled.now }
    requires can { CanStep on.now.compiled.now on.now.state.now.contents flight.old }
    ensures { OnOk result (HasStepped on.now.compiled.now on.now.state.now.contents flight.old flight.new) }
{
    let at = copy_of_target(on.alloc, &flight.next)?;
    let event = mem::replace(&mut flight.next, blank(on.alloc));
    let next = handle_and_note(on, &mut flight.buffers, at, event)?;
    drop(mem::replace(&mut flight.next, next));
    Ok(())
}

/// The work of what was buffered. A transaction that failed has written nothing.
fn work_of(alloc: Global, buffers: Buffers, failed: bool) -> Result<Work, AllocError>
    ensures { IfOk result (IsOfBuffers failed buffers) }
{
    if failed {
        buffers.into_reads(alloc)
    } else {
        buffers.into_work(alloc)
    }
}

/// Makes the work of a flight where nothing is left to do.
fn settle(alloc: Global, flight: &mut Flight, work: &mut Work) -> Result<(), AllocError>
    ensures { OnOk result (IsSettled flight.old flight.new work.old work.new) }
{
    if !is_over(&flight.next) {
        return Ok(());
    }
    let failed = has_failed(&flight.next);
    let buffers = mem::replace(&mut flight.buffers, Buffers::new(alloc));
    let made = work_of(alloc, buffers, failed)?;
    drop(mem::replace(work, made));
    Ok(())
}

/// A flight takes a step. Where that is its last one, its work is made.
pub(crate) fn go_on(
    on: &Dataflow<'_>,
    flight: &mut Flight,
    work: &mut Work,
) -> Result<(), AllocError>
    requires whole { IsWhole on.now.compiled.now }
    requires can { CanStep on.now.compiled.now on.now.state.now.contents flight.old }
    ensures { OnOk result (HasGoneOn on.now.compiled.now on.now.state.now.contents flight.old flight.new work.old work.new) }
{
    step(on, flight)?;
    settle(on.alloc, flight, work)
}
