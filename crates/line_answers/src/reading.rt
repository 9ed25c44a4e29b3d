//! What a line asks.

ghost use Rattle.std.specs.Prelude.{◌≡◌, IfOk};
ghost use Rattle.program_meaning.specs.Sources.{source_of};
ghost use Rattle.request_json.specs.Actions.{used, action_of};
ghost use Rattle.line_answers.specs.LineViews.{line_of, asked};

use input_lines::{LONGEST, trimmed};
use py_tree::Checked;
use request_json::{LineError, LineFault, read_line};
use sf_value::Request;
use std::alloc::{AllocError, Global};

/// A line of the input, with its number, counted from 1.
#[derive(Clone, Copy)]
pub struct InputLine<'a> {
    /// Without its LF. Of a line that is too long its first bytes up to one more than it may have are
    /// enough.
    pub bytes: &'a [u8],
    /// Whether it ended with LF.
    pub ended: bool,
    pub number: u64,
}

/// What a line asks.
#[derive(Drop)]
pub(crate) enum Action {
    /// It is empty.
    Skip,
    Refuse(Cause),
    Ask(Request),
}

/// Why a line can't be used.
#[derive(Clone, Copy)]
pub(crate) enum Cause {
    LineTooLong,
    Unread(LineFault),
}

impl Cause {
    ghost use Rattle.std.specs.Prelude.{◌≡◌};
    ghost use Rattle.request_json.specs.Actions.{cause_text};
    ghost use Rattle.line_answers.specs.LineViews.{cause_of};

    /// What the refusal is printed as.
    pub(crate) fn text(self) -> &'static str
        ensures { result.now ≡ cause_text (cause_of self) }
    {
        match self {
            Cause::LineTooLong => "line too long",
            Cause::Unread(fault) => fault.text(),
        }
    }
}

/// What the content of a line asks.
fn read_content(alloc: Global, program: &Checked, content: &[u8]) -> Result<Action, AllocError>
    ensures { IfOk result (λ action. asked action ≡ used (source_of program.now) content.now) }
{
    if content.is_empty() {
        return Ok(Action::Skip);
    }
    match read_line(alloc, program, content) {
        Ok(request) => Ok(Action::Ask(request)),
        Err(LineError::Fault(fault)) => Ok(Action::Refuse(Cause::Unread(fault))),
        Err(LineError::NoMemory) => Err(AllocError),
    }
}

/// What a line asks of a program.
#[tactic(auto, unfolding(request_json::specs::Actions::action_of))]
pub(crate) fn read_action(
    alloc: Global,
    program: &Checked,
    line: InputLine<'_>,
) -> Result<Action, AllocError>
    ensures { IfOk result (λ action. asked action ≡ action_of (source_of program.now) (line_of line.entry)) }
{
    if line.bytes.len() > LONGEST {
        return Ok(Action::Refuse(Cause::LineTooLong));
    }
    let content = if line.ended {
        trimmed(line.bytes)
    } else {
        line.bytes
    };
    read_content(alloc, program, content)
}
