//! What a line is answered at once, and whether a batch is due behind it.

ghost use Rattle.std.specs.Prelude.{◌≡◌, ◌<◌, ◌⊎◌, ℕ, List, [], length, IfOk, OnOk, OnErr};
ghost use Rattle.std.specs.List.{cons_option};
ghost use Rattle.serial_order.specs.ConflictFree.{Access};
ghost use Rattle.reservations.specs.CommitRules.{Chosen};
ghost use Rattle.request_history.specs.Repeats.{kept_in};
ghost use Rattle.request_history.specs.SoundHistory.{RequestFits};
ghost use Rattle.request_json.specs.Actions.{Ask, action_of};
ghost use Rattle.request_json.specs.LineSpellings.{HasSpelling};
ghost use Rattle.engine.specs.EngineViews.{core_of, source_of, tables_of};
ghost use Rattle.batch_replies.specs.Vocabulary.{most_bytes, kept_line, answer_on, answer, taken, is_due};
ghost use Rattle.line_answers.specs.LineViews.{line_of, asked, ActionFits, ActionIsSpelt};
ghost use Rattle.line_answers.specs.Services.{limits_of};
ghost use Rattle.line_answers.specs.LineAnswers.{fills_behind};
ghost use Rattle.line_answers.specs.Takings.{Takes};

use crate::reading::{Action, InputLine, read_action};
use engine::{Arrival, Engine};
use request_json::{write_bad, write_entry};
use sf_value::{Bytes, Request};
use std::alloc::{AllocError, Global};

/// A line that was taken.
#[derive(Drop)]
pub(crate) struct Taken {
    /// What it is answered at once.
    pub(crate) answer: Option<Bytes>,
    /// Whether a batch is due behind it.
    pub(crate) is_due: bool,
}

/// What a request is answered at once that met this.
fn answer_to(
    alloc: Global,
    engine: &Engine,
    arrival: Arrival,
    number: u64,
) -> Result<Option<Bytes>, AllocError>
    ensures { IfOk result (λ line. cons_option line [] ≡ answer_on (core_of engine.now) number arrival) }
{
    match arrival {
        Arrival::New | Arrival::Waiting => Ok(None),
        Arrival::Again(place) => kept_line(alloc, engine, place),
        Arrival::Reused => Ok(Some(write_bad(alloc, "id reused", number)?)),
    }
}

/// The line of the entry at a place.
fn kept_line(alloc: Global, engine: &Engine, place: u32) -> Result<Option<Bytes>, AllocError>
    ensures { IfOk result (λ line. cons_option line [] ≡ kept_line (kept_in (core_of engine.now).history place)) }
{
    match engine.entry(place) {
        Some(found) => Ok(Some(write_entry(alloc, found.id, &found.committed.outcome, found.seq)?)),
        None => Ok(None),
    }
}

/// Whether a batch is due behind a request that met this.
fn fills(engine: &Engine, batch: u32, arrival: Arrival) -> bool
    ensures { result ≡ fills_behind batch (core_of engine.now) arrival }
{
    match arrival {
        Arrival::New => batch as usize <= engine.pending().len(),
        Arrival::Again(_) | Arrival::Waiting | Arrival::Reused => false,
    }
}

/// Takes a request.
fn ask(
    alloc: Global,
    engine: &mut Engine,
    batch: u32,
    request: Request,
    number: u64,
) -> Result<Taken, AllocError>
    requires few { length (core_of engine.old).pending < 256 }
    requires fits { RequestFits (tables_of engine.old) request }
    requires spelt { HasSpelling most_bytes request }
    ensures core { OnOk result (core_of engine.new ≡ taken (core_of engine.old) (Ask request)) }
    ensures err { OnErr result ((core_of engine.new ≡ core_of engine.old) ⊎ (core_of engine.new ≡ taken (core_of engine.old) (Ask request))) }
    ensures answer { IfOk result (λ t. cons_option t.answer [] ≡ answer (core_of engine.old) number (Ask request)) }
    ensures due { (rule : List Access → Chosen) (history : ℕ)
        → IfOk result (λ t. t.is_due ≡ is_due (source_of engine.old) rule (limits_of batch history) (core_of engine.old) (Ask request)) }
    ensures takes { Takes engine.old engine.new }
{
    let arrival = engine.arrive(alloc, request)?;
    let answer = answer_to(alloc, engine, arrival, number)?;
    let is_due = fills(engine, batch, arrival);
    Ok(Taken { answer, is_due })
}

/// Takes what a line asks.
fn take_action(
    alloc: Global,
    engine: &mut Engine,
    batch: u32,
    action: Action,
    number: u64,
) -> Result<Taken, AllocError>
    requires few { length (core_of engine.old).pending < 256 }
    requires fits { ActionFits (tables_of engine.old) (asked action) }
    requires spelt { ActionIsSpelt (asked action) }
    ensures core { OnOk result (core_of engine.new ≡ taken (core_of engine.old) (asked action)) }
    ensures err { OnErr result ((core_of engine.new ≡ core_of engine.old) ⊎ (core_of engine.new ≡ taken (core_of engine.old) (asked action))) }
    ensures answer { IfOk result (λ t. cons_option t.answer [] ≡ answer (core_of engine.old) number (asked action)) }
    ensures due { (rule : List Access → Chosen) (history : ℕ)
        → IfOk result (λ t. t.is_due ≡ is_due (source_of engine.old) rule (limits_of batch history) (core_of engine.old) (asked action)) }
    ensures takes { Takes engine.old engine.new }
{
    match action {
        Action::Skip => Ok(Taken {
            answer: None,
            is_due: !engine.pending().is_empty(),
        }),
        Action::Refuse(cause) => Ok(Taken {
            answer: Some(write_bad(alloc, cause.text(), number)?),
            is_due: false,
        }),
        Action::Ask(request) => ask(alloc, engine, batch, request, number),
    }
}

/// Takes a line. Without memory the engine has taken it or not.
pub(crate) fn take_line(
    alloc: Global,
    engine: &mut Engine,
    batch: u32,
    line: InputLine<'_>,
) -> Result<Taken, AllocError>
    requires few { length (core_of engine.old).pending < 256 }
    ensures core { OnOk result (core_of engine.new ≡ taken (core_of engine.old) (action_of (source_of engine.old) (line_of line.entry))) }
    ensures err { OnErr result ((core_of engine.new ≡ core_of engine.old)
        ⊎ (core_of engine.new ≡ taken (core_of engine.old) (action_of (source_of engine.old) (line_of line.entry)))) }
    ensures answer { IfOk result (λ t. cons_option t.answer []
        ≡ answer (core_of engine.old) line.entry.number (action_of (source_of engine.old) (line_of line.entry))) }
    ensures due { (rule : List Access → Chosen) (history : ℕ)
        → IfOk result (λ t. t.is_due ≡ is_due (source_of engine.old) rule (limits_of batch history) (core_of engine.old)
        (action_of (source_of engine.old) (line_of line.entry))) }
    ensures takes { Takes engine.old engine.new }
{
    let action = read_action(alloc, engine.compiled().program(), line)?;
    take_action(alloc, engine, batch, action, line.number)
}
