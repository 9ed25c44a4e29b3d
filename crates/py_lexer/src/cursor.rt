//! A place in a text.
#![tactic(auto, unfolding(crate::specs::Cursor::at_end, crate::specs::Cursor::byte, crate::specs::Cursor::rest, crate::specs::Cursor::place, crate::specs::Cursor::moved, crate::specs::Cursor::next_line, crate::specs::Cursor::bytes_left, crate::specs::Cursor::line_end, crate::specs::Cursor::is_line_end, crate::specs::Cursor::past_line, crate::specs::Cursor::ends, crate::specs::Cursor::is_broken, crate::specs::Cursor::stray, crate::specs::Cursor::fault_at, crate::specs::Cursor::word_len, crate::specs::Cursor::digits, crate::specs::Cursor::blanks, crate::specs::Cursor::spaces))]

ghost use Rattle.std.specs.Prelude.{◌≡◌, ◌+◌, ◌<◌, ◌≤◌, max, false, length, take, IsUtf8, IsTrue};
ghost use Rattle.std.specs.Str.Lossy.{utf8_valid_len};
ghost use Rattle.py_lexer.specs.Cursor as spec;

use crate::fault::{LexFault, LexKind};
use crate::words::{blank_run, digits_of, space_run, word_run};
use py_tree::Place;
use std::marker::Model;

/// A place in a text of at most 1,048,576 bytes.
#[derive(Drop)]
pub struct Cursor<'a> {
    text: &'a [u8],
    /// How many bytes the text begins with that are UTF-8.
    valid: usize,
    at: usize,
    line: u32,
    col: u32,
}

impl<'a> Model for Cursor<'a> {
    ghost use Rattle.std.specs.Prelude.{◌≡◌, take, IsUtf8};
    ghost use Rattle.std.specs.Str.Lossy.{utf8_valid_len};
    ghost use Rattle.py_lexer.specs.Cursor.{At, IsWithin};
    ghost use Rattle.py_lexer.specs.declared.cursor.Cursor.TheInside.{Inside};

    ghost Value = { At };

    ghost view = { λ c. record { text = c.text.now; at = c.at; line = c.line; col = c.col } };

    ghost invariant = { λ c. IsWithin c.text.now c.at c.line c.col × (c.valid ≡ utf8_valid_len c.text.now) × IsUtf8 (take c.valid c.text.now) };
}

/// How many bytes the text begins with that are UTF-8.
#[tactic(auto, using(crate::proofs::Rules::whole_is_valid, crate::proofs::Rules::whole_is_utf8))]
fn valid_len(text: &[u8]) -> usize
    ensures valid { result ≡ utf8_valid_len text.now }
    ensures utf8 { IsUtf8 (take result text.now) }
{
    match std::str::from_utf8(text) {
        Ok(_) => text.len(),
        Err(error) => error.valid_up_to(),
    }
}

impl<'a> Cursor<'a> {
    /// The first place of a text.
    pub fn new(text: &'a [u8]) -> Cursor<'a>
        requires { length text.now ≤ 1048576 }
        ensures { result ≡ spec.start text.now }
    {
        Cursor {
            text,
            valid: valid_len(text),
            at: 0,
            line: 1,
            col: 1,
        }
    }

    pub fn copy(&self) -> Cursor<'a>
        ensures { result ≡ self.now }
    {
        Cursor {
            text: self.text,
            valid: self.valid,
            at: self.at,
            line: self.line,
            col: self.col,
        }
    }

    pub fn is_at_end(&self) -> bool
        ensures ends { result ≡ spec.at_end self.now }
        ensures within { self.now.at ≤ length self.now.text }
        ensures some { result ≡ false → 0 < spec.bytes_left self.now }
    {
        self.text.len() <= self.at
    }

    /// The byte here, and 0 past the end.
    pub fn byte(&self) -> u8
        ensures value { result ≡ spec.byte self.now }
        ensures some { 0 < result → 0 < spec.bytes_left self.now }
    {
        if self.at < self.text.len() {
            self.text[self.at]
        } else {
            0
        }
    }

    /// The byte with `n` before it, and 0 past the end.
    pub fn byte_after(&self, n: usize) -> u8
        ensures value { result ≡ spec.byte (spec.moved n self.now) }
        ensures some { 0 < result → n < spec.bytes_left self.now }
    {
        if n < self.text.len() - self.at {
            self.text[self.at + n]
        } else {
            0
        }
    }

    /// How long the line end here is, and 0 where there is none.
    fn line_end(&self) -> usize
        ensures value { result ≡ spec.line_end self.now }
        ensures within { result ≤ spec.bytes_left self.now }
    {
        match (self.byte(), self.byte_after(1)) {
            (b'\n', _) => 1,
            (b'\r', b'\n') => 2,
            _ => 0,
        }
    }

    pub fn is_line_end(&self) -> bool
        ensures { result ≡ spec.is_line_end self.now }
    {
        self.line_end() > 0
    }

    /// Whether nothing is left of the line.
    pub fn ends(&self) -> bool
        ensures ends { result ≡ spec.ends self.now }
        ensures some { result ≡ false → 0 < spec.bytes_left self.now }
    {
        self.is_at_end() || self.is_line_end()
    }

    /// Whether the bytes here aren't UTF-8. Those before are.
    pub fn is_broken(&self) -> bool
        ensures broken { result ≡ spec.is_broken self.now }
        ensures within { 0 < spec.bytes_left self.now → result ≡ false → self.now.at < utf8_valid_len self.now.text }
        ensures utf8 { IsUtf8 (take (utf8_valid_len self.now.text) self.now.text) }
    {
        self.at < self.text.len() && self.valid <= self.at
    }

    /// Why no line may hold what is here.
    pub fn stray(&self) -> Option<LexKind>
        ensures { result ≡ spec.stray self.now }
    {
        if self.is_broken() {
            return Some(LexKind::NotUtf8);
        }
        match self.byte() {
            0 | b'\r' => Some(LexKind::BadCharacter),
            _ => None,
        }
    }

    pub fn place(&self) -> Place
        ensures place { result ≡ spec.place self.now }
        ensures line { result.line ≤ self.now.at + 1 }
        ensures col { result.col ≤ self.now.at + 1 }
    {
        Place {
            line: self.line,
            col: self.col,
        }
    }

    pub fn fault(&self, kind: LexKind) -> LexFault
        ensures { result ≡ spec.fault_at kind self.now }
    {
        LexFault {
            place: self.place(),
            kind,
        }
    }

    /// How many bytes stand before this place.
    pub fn offset(&self) -> u32
        ensures value { result ≡ self.now.at }
        ensures within { self.now.at ≤ length self.now.text }
    {
        self.at as u32
    }

    /// The bytes from here on.
    pub fn rest(&self) -> &'a [u8]
        ensures rest { result.now ≡ spec.rest self.now }
        ensures size { length result.now ≡ spec.bytes_left self.now }
    {
        &self.text[self.at..]
    }

    /// The bytes with `n` of them before.
    pub fn behind(&self, n: usize) -> &'a [u8]
        requires { n ≤ spec.bytes_left self.now }
        ensures rest { result.now ≡ spec.rest (spec.moved n self.now) }
        ensures size { length result.now + n ≡ spec.bytes_left self.now }
    {
        &self.text[self.at + n..]
    }

    pub fn word_len(&self) -> usize
        ensures value { result ≡ spec.word_len self.now }
        ensures within { result ≤ spec.bytes_left self.now }
        ensures some { IsTrue (spec.is_letter (spec.byte self.now)) → 0 < result }
    {
        word_run(&self.text[self.at..])
    }

    pub fn digits(&self) -> &'a [u8]
        ensures digits { result.now ≡ spec.digits self.now }
        ensures within { length result.now ≤ spec.bytes_left self.now }
        ensures some { IsTrue (spec.is_digit (spec.byte self.now)) → 0 < length result.now }
    {
        digits_of(&self.text[self.at..])
    }

    /// How many spaces and tabs stand here.
    pub fn blanks(&self) -> usize
        ensures value { result ≡ spec.blanks self.now }
        ensures within { result ≤ spec.bytes_left self.now }
    {
        blank_run(&self.text[self.at..])
    }

    /// How many spaces stand here.
    pub fn spaces(&self) -> usize
        ensures value { result ≡ spec.spaces self.now }
        ensures within { result ≤ spec.bytes_left self.now }
        ensures small { result ≤ 1048576 }
    {
        space_run(&self.text[self.at..])
    }

    /// Passes bytes of this line.
    pub fn pass(&mut self, n: usize)
        requires { n ≤ spec.bytes_left self.old }
        ensures moved { self.new ≡ spec.moved n self.old }
        ensures left { spec.bytes_left self.new + n ≡ spec.bytes_left self.old }
        ensures forward { self.new.at ≡ self.old.at + n }
        ensures same_text { self.new.text ≡ self.old.text }
    {
        self.at += n;
        self.col += n as u32;
    }

    /// Passes the line end here, if there is one.
    pub fn pass_line(&mut self)
        ensures past { self.new ≡ spec.past_line self.old }
        ensures no_longer { spec.bytes_left self.new ≤ spec.bytes_left self.old }
        ensures forward { self.old.at ≤ self.new.at }
        ensures shorter { IsTrue (spec.is_line_end self.old) → spec.bytes_left self.new < spec.bytes_left self.old }
        ensures ended { IsTrue (spec.ends self.old) → spec.bytes_left self.new < max 1 (spec.bytes_left self.old) }
        ensures same_text { self.new.text ≡ self.old.text }
    {
        let n = self.line_end();
        if n > 0 {
            self.at += n;
            self.line += 1;
            self.col = 1;
        }
    }
}
