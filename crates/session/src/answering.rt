//! One line at a time: what it asks, what it comes to, and its reply line.

ghost use Rattle.std.specs.Prelude.{◌≡◌, ◌+◌, ◌<◌, ◌≤◌, ◌^◌, [], length, None, is_none, IfOk, OnOk};
ghost use Rattle.std.specs.List.{cons_option};
ghost use Rattle.program_meaning.specs.Sources.{source_of};
ghost use Rattle.request_json.specs.Actions.{Ask, used};
ghost use Rattle.request_history.specs.Repeats.{kept_of};
ghost use Rattle.request_history.specs.HistoryView.{kept_at};
ghost use Rattle.session.specs.OutputText.{start, answer_again, new_line, new_lines, after_new, has_no_place, after_action, stops, reply_to, reply, step, commit};
ghost use Rattle.session.specs.Standings.{core_of, standing_of, standing_behind, line_of};

use input_lines::{LONGEST, trimmed};
use py_tree::Checked;
use request_history::{Found, History};
use request_json::{LineError, read_line, write_bad, write_entry};
use sf_list::Sequence;
use sf_value::{Act, Bytes, Request};
use source_meaning::Local;
use std::alloc::{AllocError, Global};

/// What stands between two lines: the state, the history, and how many lines came.
#[derive(Drop)]
pub struct Standing {
    pub local: Local,
    pub history: History,
    pub lines: u64,
}

/// The kept line of an entry, where the same is asked, and else that the id was reused.
fn repeat(alloc: Global, found: Found<'_>, asked: &Act, number: u64) -> Result<Bytes, AllocError>
    ensures { IfOk result (λ line. line ≡ answer_again number asked.now (kept_at found.entry)) }
{
    if found.committed.act.same(asked) {
        write_entry(alloc, found.id, &found.committed.outcome, found.seq)
    } else {
        write_bad(alloc, "id reused", number)
    }
}

impl Standing {
    /// Before the first line.
    pub(crate) fn new(alloc: Global) -> Standing
        ensures { standing_of result ≡ start }
    {
        Standing {
            local: Local::new(alloc),
            history: History::new(alloc),
            lines: 0,
        }
    }

    /// Runs a new request, and commits it.
    fn commit(
        &mut self,
        alloc: Global,
        program: &Checked,
        request: Request,
    ) -> Result<Bytes, AllocError>
        requires fresh { kept_of self.old.history.entries request.id ≡ None }
        requires room { length self.old.history.entries + 1 < 2 ^ 32 }
        ensures lines { self.new.lines ≡ self.old.lines }
        ensures length { length self.new.history.entries ≤ length self.old.history.entries + 1 }
        ensures text { IfOk result (λ line. line ≡ new_line (source_of program.now) (core_of self.old) request) }
        ensures core { OnOk result (core_of self.new ≡ commit (source_of program.now) (core_of self.old) request) }
    {
        let outcome = self.local.run(alloc, program, &request)?;
        let seq = (self.history.len() + 1) as u32;
        let line = write_entry(alloc, &request.id, &outcome, seq)?;
        self.history.commit(request, outcome)?;
        Ok(line)
    }

    /// Answers a new request. Where the history has no place for it, there is no line.
    fn ask_new(
        &mut self,
        alloc: Global,
        program: &Checked,
        request: Request,
        most: u32,
    ) -> Result<Option<Bytes>, AllocError>
        requires fresh { kept_of self.old.history.entries request.id ≡ None }
        requires few { length self.old.history.entries ≤ most }
        ensures lines { self.new.lines ≡ self.old.lines }
        ensures few { length self.new.history.entries ≤ most }
        ensures text { IfOk result (λ made. cons_option made [] ≡ new_lines (source_of program.now) most (core_of self.old) request) }
        ensures full { IfOk result (λ made. is_none made ≡ has_no_place (source_of program.now) most (core_of self.old)) }
        ensures core { OnOk result (core_of self.new ≡ after_new (source_of program.now) most (core_of self.old) request) }
    {
        if self.history.len() >= most as usize {
            return Ok(None);
        }
        Ok(Some(self.commit(alloc, program, request)?))
    }

    /// Answers what a line asks.
    #[tactic(auto, unfolding(crate::specs::OutputText::reply_to, crate::specs::OutputText::after_action, crate::specs::OutputText::stops))]
    fn ask(
        &mut self,
        alloc: Global,
        program: &Checked,
        request: Request,
        number: u64,
        most: u32,
    ) -> Result<Option<Bytes>, AllocError>
        requires few { length self.old.history.entries ≤ most }
        ensures lines { self.new.lines ≡ self.old.lines }
        ensures few { length self.new.history.entries ≤ most }
        ensures text { IfOk result (λ made. cons_option made [] ≡ reply_to (source_of program.now) most (core_of self.old) number (Ask request)) }
        ensures full { IfOk result (λ made. is_none made ≡ stops (source_of program.now) most (core_of self.old) (Ask request)) }
        ensures core { OnOk result (core_of self.new ≡ after_action (source_of program.now) most (core_of self.old) (Ask request)) }
    {
        match self.history.find(&request.id) {
            Some(found) => Ok(Some(repeat(alloc, found, &request.act, number)?)),
            None => self.ask_new(alloc, program, request, most),
        }
    }

    /// Answers the content of a line.
    #[tactic(auto, unfolding(crate::specs::OutputText::reply_to, crate::specs::OutputText::after_action, crate::specs::OutputText::stops))]
    fn answer_content(
        &mut self,
        alloc: Global,
        program: &Checked,
        content: &[u8],
        number: u64,
        most: u32,
    ) -> Result<Option<Bytes>, AllocError>
        requires few { length self.old.history.entries ≤ most }
        ensures lines { self.new.lines ≡ self.old.lines }
        ensures few { length self.new.history.entries ≤ most }
        ensures text { IfOk result (λ made. cons_option made []
            ≡ reply_to (source_of program.now) most (core_of self.old) number (used (source_of program.now) content.now)) }
        ensures full { IfOk result (λ made. is_none made
            ≡ stops (source_of program.now) most (core_of self.old) (used (source_of program.now) content.now)) }
        ensures core { OnOk result (core_of self.new
            ≡ after_action (source_of program.now) most (core_of self.old) (used (source_of program.now) content.now)) }
    {
        if content.is_empty() {
            return Ok(Some(Sequence::new(alloc)));
        }
        match read_line(alloc, program, content) {
            Ok(request) => self.ask(alloc, program, request, number, most),
            Err(LineError::Fault(fault)) => Ok(Some(write_bad(alloc, fault.text(), number)?)),
            Err(LineError::NoMemory) => Err(AllocError),
        }
    }

    /// Answers a line, given without its LF. Of a line that is too long, its first bytes up to one
    /// more than it may have are enough. Where it asks a new request and the history has so many entries
    /// already, there is no answer.
    #[tactic(auto, unfolding(crate::specs::OutputText::reply_to, crate::specs::OutputText::after_action, crate::specs::OutputText::stops, request_json::specs::Actions::action_of))]
    pub(crate) fn answer(
        &mut self,
        alloc: Global,
        program: &Checked,
        line: &[u8],
        ended: bool,
        most: u32,
    ) -> Result<Option<Bytes>, AllocError>
        requires few { length self.old.history.entries ≤ most }
        requires lines { self.old.lines + 1 < 2 ^ 64 }
        ensures lines { self.new.lines ≤ self.old.lines + 1 }
        ensures few { length self.new.history.entries ≤ most }
        ensures text { IfOk result (λ made. cons_option made [] ≡ reply (source_of program.now) most (standing_of self.old) (line_of ended line.now)) }
        ensures standing { IfOk result (λ made. standing_behind self.new made
            ≡ step (source_of program.now) most (standing_of self.old) (line_of ended line.now)) }
    {
        let number = self.lines + 1;
        let made = if line.len() > LONGEST {
            Some(write_bad(alloc, "line too long", number)?)
        } else {
            let content = if ended { trimmed(line) } else { line };
            self.answer_content(alloc, program, content, number, most)?
        };
        self.lines = number;
        Ok(made)
    }
}
