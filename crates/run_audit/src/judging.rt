//! One line at a time: an odd one asks something, and an even one is held to what that comes to.

ghost use Rattle.std.specs.Prelude.{◌≡◌, ◌<◌, ◌≤◌, ◌++◌, ◌∷◌, [], ℕ, suc, bytes_eq, List, length, None, Some, IfOk, OnOk};
ghost use Rattle.program_meaning.specs.ClassTables.{Source as Program};
ghost use Rattle.program_meaning.specs.RequestRun.{run};
ghost use Rattle.program_meaning.specs.Sources.{source_of};
ghost use Rattle.request_json.specs.Actions.{content_of};
ghost use Rattle.request_json.specs.ReplyLines.{reply_line};
ghost use Rattle.run_audit.specs.Verdict.{asked_by, if_new, is_reply, reply_text, Front};
ghost use Rattle.run_audit.specs.Fronts.{if_too_long};
ghost use Rattle.run_audit.specs.Judging.{none_judged, behind_odd, next_number, most_of, told_behind, ending_of, Judges};
ghost use Rattle.run_audit.specs.Standings.{judged_by, shown_line, Stands};

use crate::verdict::Verdict;
use indexmap::IndexSet;
use input_lines::{LONGEST, trimmed};
use py_tree::Checked;
use request_json::{LineError, read_line, write_entry};
use sf_list::Sequence;
use sf_value::{Bytes, Outcome, Request, Text};
use source_meaning::Local;
use std::alloc::{AllocError, Global};

/// A reply line has at most this many bytes.
const LONGEST_REPLY: usize = 4_194_304;

/// There are at most this many entries.
const LAST_ENTRY: usize = 4_294_967_295;

/// What stands between two lines: the state, the ids of the entries, and the request whose reply comes next.
#[derive(Drop)]
pub struct Judge {
    pub(crate) local: Local,
    pub(crate) ids: IndexSet<Text>,
    pub(crate) asked: Option<Request>,
}

/// The content of a line, which ended with LF or is the last one.
fn content(line: &[u8], ended: bool) -> &[u8]
    ensures { result.now ≡ content_of (shown_line ended line.now) }
{
    if ended { trimmed(line) } else { line }
}

/// A line without the LF that it ends with.
fn without_end(line: Bytes) -> Bytes
    ensures { (text : List ℕ) → line ≡ text ++ 10 ∷ [] → result ≡ text }
{
    let mut line = line;
    let _end = line.pop();
    line
}

/// Whether a line is no longer than a reply may be.
fn is_reply(line: &[u8], ended: bool) -> bool
    ensures { result ≡ is_reply (shown_line ended line.now) }
{
    let _ended = ended;
    line.len() <= LONGEST_REPLY
}

/// Whether a reply is the one that is wanted, byte for byte.
fn is_same(found: &[u8], wanted: &Bytes) -> bool
    ensures { result ≡ bytes_eq found.now wanted.now }
{
    found == wanted.as_slice()
}

fn copied(alloc: Global, bytes: &[u8]) -> Result<Bytes, AllocError>
    ensures { IfOk result (λ made. made ≡ bytes.now) }
{
    let mut made = Sequence::new(alloc);
    made.extend_from_slice(alloc, bytes)?;
    Ok(made)
}

impl Judge {
    /// Before the first line.
    pub fn new(alloc: Global) -> Judge
        ensures { judged_by result ≡ none_judged }
    {
        Judge {
            local: Local::new(alloc),
            ids: IndexSet::new(alloc),
            asked: None,
        }
    }

    /// A request, unless an earlier entry has its id or there is no entry left for it.
    fn if_new(&self, request: Request) -> Option<Request>
        ensures { result ≡ if_new self.now.ids.keys request }
    {
        if self.ids.contains(&request.id) || self.ids.len() >= LAST_ENTRY {
            drop(request);
            return None;
        }
        Some(request)
    }

    /// What an odd line asks, given without its LF. Of a line that is too long, its first bytes up to one more than it may have are enough.
    pub fn asked_by(
        &self,
        alloc: Global,
        program: &Checked,
        line: &[u8],
        ended: bool,
    ) -> Result<Option<Request>, AllocError>
        ensures { IfOk result (λ asked. asked ≡ asked_by (source_of program.now) self.now.ids.keys (shown_line ended line.now)) }
    {
        if line.len() > LONGEST {
            return Ok(None);
        }
        match read_line(alloc, program, content(line, ended)) {
            Ok(request) => Ok(self.if_new(request)),
            Err(LineError::Fault(_)) => Ok(None),
            Err(LineError::NoMemory) => Err(AllocError),
        }
    }

    /// Commits an entry whose request was new, and is run already.
    fn keep(&mut self, request: Request) -> Result<(), AllocError>
        requires { if_new self.old.ids.keys request ≡ Some request }
        ensures ids { OnOk result (self.new.ids.keys ≡ self.old.ids.keys ++ request.id ∷ []) }
        ensures local { self.new.local ≡ self.old.local }
        ensures asked { self.new.asked ≡ self.old.asked }
    {
        self.ids.insert(request.id)?;
        Ok(())
    }

    /// The reply line of the entry that comes next.
    fn reply(&self, alloc: Global, id: &Text, outcome: &Outcome) -> Result<Bytes, AllocError>
        requires { length self.now.ids.keys < 4294967295 }
        ensures { IfOk result (λ line. line ≡ reply_line id.now outcome.now (suc (length self.now.ids.keys))) }
    {
        let place = (self.ids.len() + 1) as u32;
        write_entry(alloc, id, outcome, place)
    }

    /// Runs a request, and gives its reply line, without its LF.
    fn wanted(
        &mut self,
        alloc: Global,
        program: &Checked,
        request: &Request,
    ) -> Result<Bytes, AllocError>
        requires { length self.old.ids.keys < 4294967295 }
        ensures line { IfOk result (λ line. line
            ≡ reply_text request.now.id (run (source_of program.now) self.old.local request.now.act).outcome (suc (length self.old.ids.keys))) }
        ensures state { OnOk result (self.new.local ≡ (run (source_of program.now) self.old.local request.now.act).state) }
        ensures ids { self.new.ids ≡ self.old.ids }
        ensures asked { self.new.asked ≡ self.old.asked }
    {
        let outcome = self.local.run(alloc, program, request)?;
        let line = self.reply(alloc, &request.id, &outcome)?;
        drop(outcome);
        Ok(without_end(line))
    }

    /// Holds an even line, given without its LF, to what the request of the line before it comes to. Of a line that is too long, its
    /// first bytes up to one more than it may have are enough.
    fn hear(
        &mut self,
        alloc: Global,
        program: &Checked,
        request: Request,
        line: &[u8],
        ended: bool,
    ) -> Result<Option<Verdict>, AllocError>
        requires new { if_new self.old.ids.keys request ≡ Some request }
        requires none { self.old.asked ≡ None }
        ensures judges { Judges (source_of program.now) (behind_odd self.old.ids.keys self.old.local request) (judged_by self.new)
            (shown_line ended line.now) result }
        ensures stands { OnOk result (Stands self.new) }
    {
        if !is_reply(line, ended) {
            drop(request);
            let number = 2 * self.ids.len() as u64 + 2;
            return Ok(Some(Verdict::BadRun { line: number }));
        }
        let wanted = self.wanted(alloc, program, &request)?;
        let found = content(line, ended);
        if !is_same(found, &wanted) {
            drop(request);
            let place = (self.ids.len() + 1) as u32;
            let found = copied(alloc, found)?;
            return Ok(Some(Verdict::Differs {
                place,
                wanted,
                found,
            }));
        }
        drop(wanted);
        self.keep(request)?;
        Ok(None)
    }

    /// Asks what an odd line asks, given as for `asked_by`.
    fn ask(
        &mut self,
        alloc: Global,
        program: &Checked,
        line: &[u8],
        ended: bool,
    ) -> Result<Option<Verdict>, AllocError>
        requires stands { Stands self.old }
        requires none { self.old.asked ≡ None }
        ensures judges { Judges (source_of program.now) (judged_by self.old) (judged_by self.new) (shown_line ended line.now) result }
        ensures stands { OnOk result (Stands self.new) }
    {
        let asked = self.asked_by(alloc, program, line, ended)?;
        if asked.is_none() {
            let number = 2 * self.ids.len() as u64 + 1;
            return Ok(Some(Verdict::BadRun { line: number }));
        }
        self.asked = asked;
        Ok(None)
    }

    /// Judges the line that comes next, given without its LF. Of a line that is too long, its first bytes up to one more than a reply line
    /// may have are enough.
    pub fn judge(
        &mut self,
        alloc: Global,
        program: &Checked,
        line: &[u8],
        ended: bool,
    ) -> Result<Option<Verdict>, AllocError>
        requires { Stands self.old }
        ensures judges { Judges (source_of program.now) (judged_by self.old) (judged_by self.new) (shown_line ended line.now) result }
        ensures stands { OnOk result (Stands self.new) }
    {
        match self.asked.take() {
            Some(request) => self.hear(alloc, program, request, line, ended),
            None => self.ask(alloc, program, line, ended),
        }
    }

    /// The number of the line that comes next, from 1.
    fn next_number(&self) -> u64
        requires { Stands self.now }
        ensures { result ≡ next_number (judged_by self.now) }
    {
        let before = 2 * self.ids.len() as u64;
        if self.asked.is_some() {
            before + 2
        } else {
            before + 1
        }
    }

    /// How many bytes it may have.
    fn most(&self) -> usize
        ensures { result ≡ most_of self.now.asked }
    {
        if self.asked.is_some() {
            LONGEST_REPLY
        } else {
            LONGEST
        }
    }

    /// What is told where the file ends behind these lines.
    pub fn end(&self) -> Verdict
        requires { Stands self.now }
        ensures { (src : Program) → ending_of src (judged_by self.now) [] ≡ result }
    {
        if self.asked.is_some() {
            return Verdict::BadRun {
                line: self.next_number(),
            };
        }
        Verdict::Serial {
            entries: self.ids.len() as u32,
        }
    }

    /// What is told where more of the file may not be read, by the part of a line that stands behind these lines: it counts as soon as it is too long.
    pub fn cut(&self, part: &[u8]) -> Option<Verdict>
        requires { Stands self.now }
        ensures { (src : Program) → told_behind src Front (judged_by self.now) (if_too_long (most_of self.now.asked) part.now) ≡ result }
    {
        if part.len() <= self.most() {
            return None;
        }
        Some(Verdict::BadRun {
            line: self.next_number(),
        })
    }
}
