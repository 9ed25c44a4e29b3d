//! A file is audited line by line, as it is read.

ghost use Rattle.std.specs.Prelude.{◌≡◌, ◌≤◌, ℕ, List, Err, IfOk, OnErr, IfSome};
ghost use Rattle.sf_outside.specs.Causes.{Rose};
ghost use Rattle.program_meaning.specs.Sources.{source_of};
ghost use Rattle.request_json.specs.Actions.{last_line};
ghost use Rattle.run_audit.specs.Judging.{ending_of};
ghost use Rattle.run_audit.specs.Standings.{judged_by, Stands};
ghost use Rattle.run_audit.specs.Audits.{Audits};

use crate::fault::AuditFault;
use crate::judging::Judge;
use crate::verdict::Verdict;
use input_lines::{Lines, Next};
use py_tree::Checked;
use sf_outside::Files;
use std::alloc::{AllocError, Global};

/// Of a line as much is kept as a reply line may have, and a byte more.
const LONGEST_KEPT: u32 = 4_194_304;

/// The verdict on a file of which this part of a line is left behind its last LF. Of a part that is too long, its first bytes are enough.
fn at_end(
    alloc: Global,
    program: &Checked,
    judge: &mut Judge,
    part: &[u8],
) -> Result<Verdict, AllocError>
    requires { Stands judge.old }
    ensures { IfOk result (λ verdict. ending_of (source_of program.now) (judged_by judge.old) (last_line part.now) ≡ verdict) }
{
    if part.is_empty() {
        return Ok(judge.end());
    }
    match judge.judge(alloc, program, part, false)? {
        Some(verdict) => Ok(verdict),
        None => Ok(judge.end()),
    }
}

/// Reads the file of this name, at most so many bytes of it, and gives the verdict on it as soon as one is decided. Of what it read it holds
/// one line and the ids alone.
pub fn audit<F: Files>(
    alloc: Global,
    program: &Checked,
    files: &mut F,
    name: &str,
    limit: u64,
) -> Result<Verdict, AuditFault>
    ensures audits { IfSome (F.content files.old name.now) (λ all. Audits (source_of program.now) limit all result) }
    ensures kept { (q : List ℕ) → F.content files.new q ≡ F.content files.old q }
    ensures later { (q : List ℕ) → F.faults files.old q ≤ F.faults files.new q }
    ensures cause { result ≡ Err AuditFault.ReadFault → Rose (F.faults files.old name.now) (F.faults files.new name.now) }
{
    let mut judge = Judge::new(alloc);
    let mut lines = Lines::new(alloc, limit, LONGEST_KEPT);
    'lines: loop {
        match lines.next_of_file(files, name, limit) {
            Ok(Next::Line) => match judge.judge(alloc, program, lines.line(), true) {
                Ok(None) => {}
                Ok(Some(verdict)) => return Ok(verdict),
                Err(_) => return Err(AuditFault::NoMemory),
            },
            Ok(Next::End) => return Ok(at_end(alloc, program, &mut judge, lines.line())?),
            Ok(Next::ReadFault) => return Err(AuditFault::ReadFault),
            Ok(Next::TooLong) => return judge.cut(lines.line()).ok_or(AuditFault::InputTooLong),
            Err(_) => return Err(AuditFault::NoMemory),
        }
    }
}
