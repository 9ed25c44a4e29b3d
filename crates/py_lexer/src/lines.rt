//! The logical lines of a text.

ghost use Rattle.std.specs.Prelude.{◌≡◌, ◌<◌, ◌≤◌, ℕ, List, [], ◌∷◌, ◌++◌, false, map, length, IfOk, OnOk, IsTrue};
ghost use Rattle.py_lexer.specs.Cursor as at;
ghost use Rattle.py_lexer.specs.LogicalLines.{IsBare, IsColumn, IsLine, IsLines};
ghost use Rattle.py_lexer.specs.LogicalLines as spec;
ghost use Rattle.py_lexer.specs.OpenColumns.{AreOpen};
ghost use Rattle.py_lexer.specs.Spans.{Rise, LinesRise};
ghost use Rattle.py_lexer.specs.Views.{plain_line, Comes, Meets, Lexes};

use crate::columns::{is_bad_dedent, open_column};
use crate::cursor::Cursor;
use crate::fault::{LexError, LexFault, LexKind};
use crate::gaps::pass_comment;
use crate::scan::tokens;
use crate::token::{Line, Lines};
use crate::words::is_hash;
use py_tree::Place;
use sf_list::Sequence;
use std::alloc::Global;

/// The longest text, in bytes.
const LONGEST: usize = 1_048_576;

/// Passes the spaces and tabs here.
#[tactic(auto, unfolding(crate::specs::LogicalLines::unblanked))]
fn pass_blanks(text: &mut Cursor<'_>)
    ensures unblanked { text.new ≡ spec.unblanked text.old }
    ensures no_longer { at.bytes_left text.new ≤ at.bytes_left text.old }
    ensures forward { text.old.at ≤ text.new.at }
    ensures same_text { text.new.text ≡ text.old.text }
{
    text.pass(text.blanks());
}

/// Whether more than a comment stands here.
#[tactic(auto, unfolding(crate::specs::LogicalLines::has_token))]
fn has_token(text: &Cursor<'_>) -> bool
    ensures { result ≡ spec.has_token text.now }
{
    !text.ends() && !is_hash(text.byte())
}

/// Passes what is left of a line without a token.
#[tactic(auto, using(crate::proofs::LineRules::bare_rules), unfolding(crate::specs::LogicalLines::has_token))]
fn pass_bare(text: &mut Cursor<'_>) -> Result<(), LexFault>
    requires { spec.has_token text.old ≡ false }
    ensures comes { Meets (λ u. u) (IsBare text.old) result text.new }
    ensures no_longer { OnOk result (at.bytes_left text.new ≤ at.bytes_left text.old) }
    ensures ends { OnOk result (IsTrue (at.ends text.new)) }
    ensures forward { text.old.at ≤ text.new.at }
    ensures same_text { text.new.text ≡ text.old.text }
{
    if text.ends() {
        return Ok(());
    }
    text.pass(1);
    pass_comment(text)
}

/// Where a line's spaces end.
#[tactic(auto, unfolding(crate::specs::LogicalLines::unspaced))]
fn unspaced<'a>(begin: &Cursor<'a>) -> Cursor<'a>
    ensures { result ≡ spec.unspaced begin.now }
{
    let mut text = begin.copy();
    text.pass(begin.spaces());
    text
}

/// Whether a tab stands before the line's first token.
#[tactic(auto, unfolding(crate::specs::LogicalLines::has_tab))]
fn has_tab(begin: &Cursor<'_>) -> bool
    ensures { result ≡ spec.has_tab begin.now }
{
    unspaced(begin).byte() == 9
}

/// The column of the line that begins at one place and has its first token at another.
#[tactic(auto, using(crate::proofs::LineRules::column_rules))]
fn column_of(begin: &Cursor<'_>, token: &Cursor<'_>, kept: &[u32]) -> Result<u32, LexFault>
    requires { token.now ≡ spec.unblanked begin.now }
    ensures { (before : List ℕ) → AreOpen kept.now before → Meets (λ c. c) (IsColumn before begin.now) result token.now }
{
    if has_tab(begin) {
        return Err(unspaced(begin).fault(LexKind::TabIndent));
    }
    if token.is_broken() {
        return Err(token.fault(LexKind::NotUtf8));
    }
    let column = begin.spaces() as u32;
    if is_bad_dedent(kept, column) {
        return Err(token.fault(LexKind::BadDedent));
    }
    Ok(column)
}

/// The logical line that begins at one place and has its first token at another.
#[tactic(auto, using(crate::proofs::LineRules::line_rules))]
fn logical_line(
    alloc: Global,
    begin: &Cursor<'_>,
    kept: &mut Vec<u32>,
    text: &mut Cursor<'_>,
) -> Result<Line, LexError>
    requires { text.old ≡ spec.unblanked begin.now }
    ensures comes { (before : List ℕ) → AreOpen kept.old.items before → Comes (plain_line text.old.text) (IsLine before begin.now) result text.new }
    ensures opens { (before : List ℕ) → AreOpen kept.old.items before → IfOk result (λ l. AreOpen kept.new.items (before ++ l.column ∷ [])) }
    ensures rise { IfOk result (λ l. Rise text.old.text text.old.at l.tokens text.new.at) }
    ensures shorter { OnOk result (at.bytes_left text.new < at.bytes_left text.old) }
    ensures same_text { text.new.text ≡ text.old.text }
{
    let column = column_of(begin, text, kept)?;
    open_column(kept, column)?;
    let tokens = tokens(alloc, text)?;
    Ok(Line { column, tokens })
}

/// The logical lines up to the text's end.
#[tactic(auto, using(crate::proofs::LineRules::lines_rules, crate::proofs::SpanLaws::rise_rules))]
fn lines(alloc: Global, text: &mut Cursor<'_>) -> Result<Lines, LexError>
    ensures comes { Comes (map (plain_line text.old.text)) (IsLines [] text.old) result text.new }
    ensures rise { IfOk result (λ ls. LinesRise text.old.text text.old.at ls (length text.old.text)) }
{
    let mut items = Sequence::new(alloc);
    let mut kept = Vec::new(alloc);
    'lines: while !text.is_at_end() {
        let begin = text.copy();
        pass_blanks(text);
        if !has_token(text) {
            pass_bare(text)?;
            text.pass_line();
            continue;
        }
        let line = logical_line(alloc, &begin, &mut kept, text)?;
        items.push(alloc, line)?;
        text.pass_line();
    }
    Ok(items)
}

/// The logical lines of a text, or its first fault.
#[tactic(auto, using(crate::proofs::LineRules::text_rules))]
pub fn lex(alloc: Global, text: &[u8]) -> Result<Lines, LexError>
    ensures lines { Lexes text.now result }
    ensures spans { IfOk result (λ ls. LinesRise text.now 0 ls (length text.now)) }
{
    if text.len() > LONGEST {
        return Err(LexError::Fault(LexFault {
            place: Place { line: 1, col: 1 },
            kind: LexKind::TooLong,
        }));
    }
    let mut cursor = Cursor::new(text);
    lines(alloc, &mut cursor)
}
