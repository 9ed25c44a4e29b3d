//! What is left to read of a program: a reader over its lines of tokens.
#![tactic(auto, unfolding(py_tree::specs::Reading::next, py_tree::specs::Reading::here, py_tree::specs::Reading::ends, py_tree::specs::Reading::left, py_tree::specs::Reading::lines_left, py_tree::specs::Reading::sees, py_tree::specs::Reading::sees_name, py_tree::specs::Reading::sees_int, py_tree::specs::Reading::sees_str, py_tree::specs::Reading::int_value, py_tree::specs::Reading::named, py_tree::specs::Reading::name_number, py_tree::specs::Reading::placed_name, py_tree::specs::Reading::texted, py_tree::specs::Reading::text_number, py_tree::specs::Reading::quotes_name, py_tree::specs::Reading::refused, py_tree::specs::Reading::too_deep, py_tree::specs::Reading::next_line, py_tree::specs::Reading::has_line, py_tree::specs::Reading::column, py_tree::specs::Reading::is_at, py_tree::specs::Reading::is_deeper), using(crate::proofs::Ahead::ahead, crate::proofs::Places::place_rules))]

ghost use Rattle.std.specs.Prelude.{◌≡◌, ◌<◌, ◌≤◌, false, [], length, slice_index_or, IsTrue, IfOk, OnOk};
ghost use Rattle.py_tree.specs.Reading as spec;
ghost use Rattle.py_lexer.specs.Spans.{LinesRise};
ghost use Rattle.py_parser.specs.Reads.{input, tokens_of_first};

use crate::numbering::numbered;
use crate::spelling::{
    begins_string, bytes_at, is_left_out, is_name, is_spelt, literal_text, past_token, text_of,
};
use crate::syntax_error::SyntaxError;
use py_lexer::{Line, Token, TokenKind};
use py_tree::{Name, Names, Place, PlacedName, SyntaxFault, SyntaxKind, Terminal};
use std::alloc::{AllocError, Global};
use std::marker::Model;

/// A reader of a program's lines.
#[derive(Drop)]
pub struct Reader<'a> {
    text: &'a [u8],
    /// What is left of the line.
    tokens: &'a [Token],
    /// Just past the last token that was read.
    behind: Place,
    /// The lines behind this one.
    lines: &'a [Line],
    names: Names,
}

impl<'a> Model for Reader<'a> {
    ghost use Rattle.py_tree.specs.Reading.{Input};
    ghost use Rattle.py_parser.specs.Reads.{input, IsReading};

    ghost Value = { Input };

    ghost view = { λ r. input r.text.now r.tokens.now r.behind r.lines.now r.names };

    ghost invariant = { λ r. IsReading r.text.now r.tokens.now r.lines.now r.names };
}

/// The tokens of the first line, of which there are none where no line is left.
fn first_tokens(lines: &[Line]) -> &[Token]
    ensures { result.now ≡ tokens_of_first lines.now }
{
    match lines {
        [line, ..] => line.tokens.as_slice(),
        [] => &[],
    }
}

impl<'a> Reader<'a> {
    /// Before the first line, with these names numbered.
    pub fn new(text: &'a [u8], lines: &'a [Line], names: Names) -> Reader<'a>
        requires lexed { LinesRise text.now 0 lines.now (length text.now) }
        requires short { length text.now ≤ 1048576 }
        requires few { length names ≤ 18 }
        ensures { result ≡ input text.now [] (record { line = 1; col = 1 }) lines.now names }
    {
        Reader {
            text,
            tokens: &[],
            behind: Place { line: 1, col: 1 },
            lines,
            names,
        }
    }

    /// The names so far, in place of the reader.
    pub fn into_names(self) -> Names
        ensures names { result ≡ self.entry.names }
        ensures few { length result ≤ 1048594 }
    {
        self.names
    }

    /// The bytes of the token with `n` before it, of which there are none past the line's end.
    pub fn bytes(&self, n: usize) -> &'a [u8]
        ensures { result.now ≡ (slice_index_or self.now.tokens n spec.no_token).bytes }
    {
        bytes_at(self.text, self.tokens, n)
    }

    /// Whether the next token is this word or sign.
    pub fn sees(&self, terminal: Terminal) -> bool
        ensures sees { result ≡ spec.sees terminal self.now }
        ensures some { IsTrue result → 0 < spec.left self.now }
    {
        is_spelt(self.bytes(0), terminal)
    }

    /// Whether the token behind the next one is this word or sign.
    pub fn sees_next(&self, terminal: Terminal) -> bool
        ensures { result ≡ spec.sees terminal (spec.next self.now) }
    {
        is_spelt(self.bytes(1), terminal)
    }

    pub fn sees_name(&self) -> bool
        ensures sees { result ≡ spec.sees_name self.now }
        ensures some { IsTrue result → 0 < spec.left self.now }
    {
        is_name(self.bytes(0))
    }

    /// Whether the token behind the next one is a name.
    pub fn sees_name_next(&self) -> bool
        ensures { result ≡ spec.sees_name (spec.next self.now) }
    {
        is_name(self.bytes(1))
    }

    pub fn sees_int(&self) -> bool
        ensures sees { result ≡ spec.sees_int self.now }
        ensures some { IsTrue result → 0 < spec.left self.now }
    {
        match self.tokens {
            [token, ..] => matches!(token.kind, TokenKind::Int(_)),
            [] => false,
        }
    }

    pub fn sees_str(&self) -> bool
        ensures sees { result ≡ spec.sees_str self.now }
        ensures some { IsTrue result → 0 < spec.left self.now }
    {
        begins_string(self.tokens)
    }

    /// Whether the text of the string that comes next is a name.
    pub fn quotes_name(&self, alloc: Global) -> Result<bool, AllocError>
        requires { IsTrue (spec.sees_str self.now) }
        ensures { IfOk result (λ is. is ≡ spec.quotes_name self.now) }
    {
        let text = literal_text(alloc, self.text, self.tokens)?;
        Ok(is_name(text.as_str().as_bytes()))
    }

    /// The number that the next token is.
    pub fn int_value(&self) -> i128
        ensures { result ≡ spec.int_value self.now }
    {
        match self.tokens {
            [
                Token {
                    kind: TokenKind::Int(n),
                    ..
                },
                ..
            ] => *n,
            _ => 0,
        }
    }

    /// Whether nothing is left of the line.
    pub fn ends(&self) -> bool
        ensures ends { result ≡ spec.ends self.now }
        ensures some { result ≡ false → 0 < spec.left self.now }
    {
        self.tokens.is_empty()
    }

    /// Whether nothing is left of the line behind the next token.
    pub fn ends_next(&self) -> bool
        ensures { result ≡ spec.ends (spec.next self.now) }
    {
        self.tokens.len() <= 1
    }

    /// The place of the next token. The end of a line stands just past its last token.
    pub fn here(&self) -> Place
        ensures { result ≡ spec.here self.now }
    {
        match self.tokens {
            [token, ..] => token.place,
            [] => self.behind,
        }
    }

    /// Just past the next token.
    fn past_first(&self) -> Place
        ensures { result ≡ spec.behind_first self.now.tokens self.now.behind }
    {
        match self.tokens.first() {
            Some(token) => past_token(self.text, token),
            None => self.behind,
        }
    }

    /// Passes the next token, if there is one.
    pub fn pass(&mut self)
        ensures next { self.new ≡ spec.next self.old }
        ensures no_longer { spec.left self.new ≤ spec.left self.old }
        ensures shorter { 0 < spec.left self.old → spec.left self.new < spec.left self.old }
        ensures same_lines { spec.lines_left self.new ≡ spec.lines_left self.old }
    {
        if !self.tokens.is_empty() {
            self.behind = self.past_first();
            self.tokens = &self.tokens[1..];
        }
    }

    /// Numbers the name that comes next, and passes it.
    pub fn take_name(&mut self, alloc: Global) -> Result<PlacedName, AllocError>
        requires { IsTrue (spec.sees_name self.old) }
        ensures name { IfOk result (λ name. name ≡ spec.placed_name self.old) }
        ensures named { OnOk result (self.new ≡ spec.named self.old) }
        ensures shorter { OnOk result (spec.left self.new < spec.left self.old) }
        ensures same_lines { OnOk result (spec.lines_left self.new ≡ spec.lines_left self.old) }
    {
        let place = self.here();
        let behind = self.past_first();
        let word = text_of(self.bytes(0));
        let name = numbered(alloc, &mut self.names, word)?;
        self.behind = behind;
        self.tokens = &self.tokens[1..];
        Ok(PlacedName { name, place })
    }

    /// Numbers the text of the string that comes next, and passes it.
    pub fn take_text(&mut self, alloc: Global) -> Result<Name, AllocError>
        requires { IsTrue (spec.sees_str self.old) }
        ensures name { IfOk result (λ name. name.0 ≡ spec.text_number self.old) }
        ensures texted { OnOk result (self.new ≡ spec.texted self.old) }
        ensures shorter { OnOk result (spec.left self.new < spec.left self.old) }
        ensures same_lines { OnOk result (spec.lines_left self.new ≡ spec.lines_left self.old) }
    {
        let behind = self.past_first();
        let text = literal_text(alloc, self.text, self.tokens)?;
        let name = numbered(alloc, &mut self.names, text.as_str())?;
        self.behind = behind;
        self.tokens = &self.tokens[1..];
        Ok(name)
    }

    /// The next token can't be taken.
    pub fn refusal(&self) -> SyntaxError
        ensures { result ≡ SyntaxError.Fault (spec.refused self.now) }
    {
        let kind = if is_left_out(self.bytes(0)) {
            SyntaxKind::LeftOut
        } else {
            SyntaxKind::Unexpected
        };
        SyntaxError::Fault(SyntaxFault {
            place: self.here(),
            kind,
        })
    }

    /// The next token opens one level too many.
    pub fn excess(&self) -> SyntaxError
        ensures { result ≡ SyntaxError.Fault (spec.too_deep self.now) }
    {
        SyntaxError::Fault(SyntaxFault {
            place: self.here(),
            kind: SyntaxKind::TooDeep,
        })
    }

    /// Begins the next line, if there is one.
    pub fn begin_line(&mut self)
        ensures next_line { self.new ≡ spec.next_line self.old }
        ensures no_more { spec.lines_left self.new ≤ spec.lines_left self.old }
        ensures fewer { 0 < spec.lines_left self.old → spec.lines_left self.new < spec.lines_left self.old }
    {
        self.tokens = first_tokens(self.lines);
        if !self.lines.is_empty() {
            self.lines = &self.lines[1..];
        }
    }

    pub fn has_line(&self) -> bool
        ensures has_line { result ≡ spec.has_line self.now }
        ensures some { IsTrue result → 0 < spec.lines_left self.now }
    {
        !self.lines.is_empty()
    }

    /// The column of the next line.
    pub fn column(&self) -> u32
        ensures { result ≡ spec.column self.now }
    {
        match self.lines {
            [line, ..] => line.column,
            [] => 0,
        }
    }

    /// Whether there is a next line, at this column.
    pub fn is_at(&self, column: u32) -> bool
        ensures is_at { result ≡ spec.is_at column self.now }
        ensures some { IsTrue result → 0 < spec.lines_left self.now }
    {
        match self.lines {
            [line, ..] => line.column == column,
            [] => false,
        }
    }

    /// Whether there is a next line, deeper than this column.
    pub fn is_deeper(&self, column: u32) -> bool
        ensures is_deeper { result ≡ spec.is_deeper column self.now }
        ensures some { IsTrue result → 0 < spec.lines_left self.now }
    {
        match self.lines {
            [line, ..] => column < line.column,
            [] => false,
        }
    }

    /// Whether the next line begins with this word.
    pub fn line_begins(&self, terminal: Terminal) -> bool
        ensures { result ≡ spec.sees terminal (spec.next_line self.now) }
    {
        is_spelt(bytes_at(self.text, first_tokens(self.lines), 0), terminal)
    }

    /// Whether the next line begins with a string.
    pub fn line_begins_string(&self) -> bool
        ensures { result ≡ spec.sees_str (spec.next_line self.now) }
    {
        begins_string(first_tokens(self.lines))
    }
}
