//! The flights of requests before any event is handled.

ghost use Rattle.std.specs.Prelude.{◌≡◌, ◌++◌, ◌∷◌, [], ◌<◌, ◌^◌, length, IfOk, OnOk};
ghost use Rattle.program_meaning.specs.Sources.{source_of};
ghost use Rattle.request_events.specs.RequestEvents as events;
ghost use Rattle.operator_graph.specs.FirstFlights as spec;
ghost use Rattle.operator_graph.specs.FirstFlights.{acts_of};

use crate::flight::{Flight, Flights};
use block_code::{Event, EventKind};
use py_tree::Checked;
use sf_list::{Sequence, TryClone};
use sf_value::{Act, Outcome, Ref, Request};
use source_meaning::{SIZE_LIMIT, bare_failure, is_heavy, new_entity};
use std::alloc::{AllocError, Global};
use transaction_buffers::Buffers;

/// The steps that a request has.
const STEPS: u32 = 100_000;

/// What a request asks of its entity.
fn asked_for(alloc: Global, program: &Checked, asked: Act) -> Result<EventKind, AllocError>
    ensures { IfOk result (λ k. k ≡ events.asked_for (source_of program.now) asked) }
{
    match asked {
        Act::Call {
            class,
            key,
            method,
            args,
        } => Ok(EventKind::Enter {
            to: Ref { class, key },
            method,
            args,
        }),
        Act::New { class, args } => match new_entity(alloc, program, class, &args) {
            Ok(to) => Ok(EventKind::Make { to, args }),
            Err(error) => {
                drop(args);
                Err(error)
            }
        },
    }
}

/// The first event of a request that doesn't weigh too much: its call or creation takes a step.
fn begin(alloc: Global, program: &Checked, tx: u32, asked: &Act) -> Result<Event, AllocError>
    ensures { IfOk result (λ e. e ≡ spec.begun (source_of program.now) tx asked.now) }
{
    let asked = asked.try_clone(alloc)?;
    Ok(Event {
        tx,
        steps: STEPS - 1,
        frames: Sequence::new(alloc),
        kind: asked_for(alloc, program, asked)?,
    })
}

/// The first event of one that does: it is over at once.
fn refuse(alloc: Global, tx: u32) -> Result<Event, AllocError>
    ensures { IfOk result (λ e. e ≡ spec.refused tx) }
{
    let failure = bare_failure(alloc, SIZE_LIMIT)?;
    Ok(Event {
        tx,
        steps: STEPS,
        frames: Sequence::new(alloc),
        kind: EventKind::Done(Outcome::Failed(failure)),
    })
}

/// The first event of a request.
fn first_event(alloc: Global, program: &Checked, tx: u32, asked: &Act) -> Result<Event, AllocError>
    ensures { IfOk result (λ e. e ≡ events.first_event (source_of program.now) tx asked.now) }
{
    if is_heavy(asked) {
        refuse(alloc, tx)
    } else {
        begin(alloc, program, tx, asked)
    }
}

fn add_first(
    made: &mut Flights,
    alloc: Global,
    program: &Checked,
    tx: u32,
    asked: &Act,
) -> Result<(), AllocError>
    ensures { OnOk result (made.new ≡ made.old ++ spec.first_flight (source_of program.now) tx asked.now ∷ []) }
{
    let next = first_event(alloc, program, tx, asked)?;
    let flight = Flight {
        next,
        buffers: Buffers::new(alloc),
    };
    made.push(alloc, flight)
}

/// The flights of requests, in their order.
pub(crate) fn first_flights(
    alloc: Global,
    program: &Checked,
    requests: &[Request],
) -> Result<Flights, AllocError>
    requires { length requests.now < 2 ^ 32 }
    ensures { IfOk result (λ flights. flights ≡ spec.first_flights (source_of program.now) 0 (acts_of requests.now)) }
{
    let mut made = Sequence::new(alloc);
    for (tx, request) in requests.iter().enumerate() {
        if let Err(error) = add_first(&mut made, alloc, program, tx as u32, &request.act) {
            drop(made);
            return Err(error);
        }
    }
    Ok(made)
}
