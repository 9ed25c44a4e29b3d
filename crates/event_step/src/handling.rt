//! One event on one record.

ghost use Rattle.std.specs.Prelude.{◌≡◌, IfOk};
ghost use Rattle.py_tree.specs.ClassRules.{tables_of};
ghost use Rattle.py_tree.specs.CheckedViews.{checked_program, checked_names};
ghost use Rattle.program_meaning.specs.Sources.{source_of};
ghost use Rattle.block_code.specs.GraphFits.{GraphFits};
ghost use Rattle.block_code.specs.GraphViews.{graph_tables, graph_blocks};
ghost use Rattle.block_code.specs.EventsFit.{EventFits};
ghost use Rattle.block_runs.specs.EventStep.{StepsTo, lasts, target_of};
ghost use Rattle.std.specs.Option.{option_copied};
ghost use Rattle.block_runs.specs.StepFits.{IsReady};
ghost use Rattle.event_step.specs.Steps.{ComesTo, IsDue, TargetFits, as_step, lent, fields_of, step_in};

use crate::entered::Code;
use crate::entering::{enter_taken, make_taken, take_values};
use crate::frames::last_entity;
use crate::resuming::resume;
use block_code::{Event, EventKind, Frames, Graph};
use py_tree::Checked;
use sf_list::TryClone;
use sf_value::{Outcome, Record, Ref, Value};
use std::alloc::{AllocError, Global};
use std::mem;

/// What an event has made of the record of its entity, and what comes next.
#[derive(Drop)]
pub struct Handled {
    /// The record, or none where there is no such entity.
    pub held: Option<Record>,
    /// Whether a field was assigned, also where its value stayed equal, or the record was made.
    pub wrote: bool,
    pub next: Event,
}

/// A copy of a record, where there is one.
fn copied(alloc: Global, held: Option<&Record>) -> Result<Option<Record>, AllocError>
    ensures { IfOk result (λ made. fields_of made ≡ lent held.entry) }
{
    match held {
        Some(held) => Ok(Some(held.try_clone(alloc)?)),
        None => Ok(None),
    }
}

/// What is done for an event that asks for this, whose parts are moved out.
fn handle_kind(
    code: &Code<'_>,
    asked: &mut EventKind,
    tx: u32,
    frames: Frames,
    steps: u32,
    held: Option<Record>,
) -> Result<Handled, AllocError>
    requires { IsDue code.now asked.old tx frames steps (fields_of held) }
    ensures { IfOk result (λ h. ComesTo (step_in code.now asked.old tx frames steps (fields_of held)) (as_step h)) }
{
    match asked {
        EventKind::Enter { to, method, args } => {
            let args = take_values(code.alloc, args);
            enter_taken(code, to, *method, args, tx, frames, steps, held)
        }
        EventKind::Make { to, args } => {
            let args = take_values(code.alloc, args);
            make_taken(code, to, args, tx, frames, steps, held)
        }
        EventKind::Resume(outcome) => {
            let outcome = mem::replace(outcome, Outcome::Value(Value::Nil));
            match held {
                Some(held) => resume(code, outcome, tx, frames, steps, held),
                // a frame goes on with the record of its entity
                None => unreachable!(),
            }
        }
        // nothing is left to do
        EventKind::Done(_) => unreachable!(),
    }
}

/// The entity of an event, on whose record it is handled; there is none where nothing is left to do.
pub fn target(event: &Event) -> Option<&Ref>
    ensures { option_copied result ≡ target_of event.now.kind (lasts event.now.frames) }
{
    match &event.kind {
        EventKind::Enter { to, .. } | EventKind::Make { to, .. } => Some(to),
        EventKind::Resume(_) => last_entity(&event.frames),
        EventKind::Done(_) => None,
    }
}

/// Handles one event, with the record of its entity or with none, and sees nothing else of the state.
///
/// It is an error where memory runs out, and then nothing has changed.
pub fn handle(
    alloc: Global,
    program: &Checked,
    graph: &Graph,
    held: Option<&Record>,
    event: Event,
) -> Result<Handled, AllocError>
    requires tables { graph_tables graph.now ≡ tables_of (checked_names program.now) (checked_program program.now) }
    requires graph { GraphFits (checked_names program.now) (checked_program program.now) (graph_blocks graph.now) }
    requires event { IsReady (graph_tables graph.now) (graph_blocks graph.now) event (lent held) }
    ensures step { IfOk result (λ h. StepsTo (source_of program.now) (graph_tables graph.now) (graph_blocks graph.now) event (lent held.entry) (as_step h)) }
    ensures record { IfOk result (λ h. TargetFits (graph_tables graph.now) event (fields_of h.held)) }
    ensures next { IfOk result (λ h. EventFits (graph_tables graph.now) (graph_blocks graph.now) h.next) }
{
    let code = Code {
        alloc,
        program,
        graph,
    };
    let Event {
        tx,
        steps,
        frames,
        kind,
    } = event;
    match copied(alloc, held) {
        Ok(held) => {
            let mut kind = kind;
            let handled = handle_kind(&code, &mut kind, tx, frames, steps, held);
            drop(kind);
            handled
        }
        Err(error) => {
            drop(frames);
            drop(kind);
            Err(error)
        }
    }
}
