//! One event of a compiled program on one record.

ghost use Rattle.std.specs.Prelude.{IfOk};
ghost use Rattle.block_code.specs.EventsFit.{EventFits};
ghost use Rattle.block_runs.specs.StepFits.{IsReady};
ghost use Rattle.event_step.specs.Steps.{TargetFits, as_step, lent, fields_of};
ghost use Rattle.block_step.specs.CompiledViews.{compiled_tables, compiled_blocks, IsWhole, StepsIn};

use crate::compiled::Compiled;
use block_code::Event;
use event_step::{Handled, handle as handle_event};
use sf_value::Record;
use std::alloc::{AllocError, Global};

/// Handles one event, with the record of its entity or with none, and sees nothing else of the state.
///
/// It is an error where memory runs out, and then nothing has changed.
pub fn handle(
    alloc: Global,
    compiled: &Compiled,
    held: Option<&Record>,
    event: Event,
) -> Result<Handled, AllocError>
    requires whole { IsWhole compiled.now }
    requires ready { IsReady (compiled_tables compiled.now) (compiled_blocks compiled.now) event (lent held) }
    ensures step { IfOk result (λ h. StepsIn compiled.now event (lent held.entry) (as_step h)) }
    ensures record { IfOk result (λ h. TargetFits (compiled_tables compiled.now) event (fields_of h.held)) }
    ensures next { IfOk result (λ h. EventFits (compiled_tables compiled.now) (compiled_blocks compiled.now) h.next) }
{
    handle_event(alloc, &compiled.program, &compiled.graph, held, event)
}
