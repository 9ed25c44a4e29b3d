//! What stands between tokens: blanks, comments, line ends within brackets, and joined lines.
#![tactic(auto, unfolding(crate::specs::LogicalLines::joins, crate::specs::LogicalLines::passes_line))]

ghost use Rattle.std.specs.Prelude.{◌≡◌, ◌<◌, ◌≤◌, IsTrue, OnOk};
ghost use Rattle.py_lexer.specs.Cursor as at;
ghost use Rattle.py_lexer.specs.LogicalLines.{joins as Joins, passes_line as PassesLine, IsComment, IsGap};
ghost use Rattle.py_lexer.specs.Views.{Meets};

use crate::cursor::Cursor;
use crate::fault::LexFault;
use crate::words::{is_backslash, is_blank, is_hash};

/// Passes what follows the sign of a comment, up to the line's end.
#[tactic(auto, using(crate::proofs::Rules::comment_rules))]
pub fn pass_comment(text: &mut Cursor<'_>) -> Result<(), LexFault>
    ensures comes { Meets (λ u. u) (IsComment text.old) result text.new }
    ensures no_longer { OnOk result (at.bytes_left text.new ≤ at.bytes_left text.old) }
    ensures forward { text.old.at ≤ text.new.at }
    ensures ends { OnOk result (IsTrue (at.ends text.new)) }
    ensures same_text { text.new.text ≡ text.old.text }
{
    'comment: while !text.ends() {
        if let Some(kind) = text.stray() {
            return Err(text.fault(kind));
        }
        text.pass(1);
    }
    Ok(())
}

/// Whether a backslash joins the next line to this one.
fn joins(text: &Cursor<'_>) -> bool
    ensures joins { result ≡ Joins text.now }
    ensures some { IsTrue result → 0 < at.bytes_left text.now }
{
    if !is_backslash(text.byte()) {
        return false;
    }
    let mut next = text.copy();
    next.pass(1);
    next.is_line_end()
}

/// Whether this is a line end within brackets.
fn passes_line(depth: usize, text: &Cursor<'_>) -> bool
    ensures passes { result ≡ PassesLine depth text.now }
    ensures line_end { IsTrue result → IsTrue (at.is_line_end text.now) }
{
    depth > 0 && text.is_line_end()
}

/// Passes what separates two tokens where so many brackets are open.
#[tactic(auto, using(crate::proofs::Rules::gap_rules))]
pub fn pass_gap(depth: usize, text: &mut Cursor<'_>) -> Result<(), LexFault>
    ensures comes { Meets (λ u. u) (IsGap depth text.old) result text.new }
    ensures no_longer { OnOk result (at.bytes_left text.new ≤ at.bytes_left text.old) }
    ensures forward { text.old.at ≤ text.new.at }
    ensures same_text { text.new.text ≡ text.old.text }
{
    'gap: loop {
        if is_blank(text.byte()) {
            text.pass(1);
        } else if is_hash(text.byte()) {
            text.pass(1);
            pass_comment(text)?;
        } else if passes_line(depth, text) {
            text.pass_line();
        } else if joins(text) {
            text.pass(1);
            text.pass_line();
        } else {
            return Ok(());
        }
    }
}
