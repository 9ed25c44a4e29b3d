//! String literals: where they end, and what they stand for.
#![tactic(auto, unfolding(crate::specs::LogicalLines::quote_at, crate::specs::LogicalLines::closes))]

ghost use Rattle.std.specs.Prelude.{◌≡◌, ◌+◌, ◌<◌, ◌≤◌, ◌-◌, false, length, slice_index, IfSome, OnOk, IsTrue};
ghost use Rattle.std.specs.Char.{IsScalar};
ghost use Rattle.py_tree.specs.StringText.{escape, hex_digit as HexDigit, hex_value};
ghost use Rattle.py_lexer.specs.Cursor as at;
ghost use Rattle.py_lexer.specs.LogicalLines.{IsBody, IsPiece, quote_len, stands_thrice as StandsThrice};
ghost use Rattle.py_lexer.specs.LogicalLines as spec;
ghost use Rattle.py_lexer.specs.Spans.{ClosedBetween};
ghost use Rattle.py_lexer.specs.Views.{Meets};

use crate::cursor::Cursor;
use crate::fault::{LexFault, LexKind};
use crate::words::is_backslash;

/// The quotes that a string begins with, and ends with.
#[derive(Clone, Copy)]
pub struct Quote {
    pub mark: u8,
    pub is_triple: bool,
}

impl Quote {
    pub fn len(self) -> usize
        ensures { result ≡ quote_len self }
    {
        if self.is_triple { 3 } else { 1 }
    }
}

/// Whether this quote stands three times here.
fn stands_thrice(mark: u8, text: &Cursor<'_>) -> bool
    ensures thrice { result ≡ StandsThrice mark text.now }
    ensures mark { IsTrue result → at.byte text.now ≡ mark }
    ensures within { 0 < mark → IsTrue result → 3 ≤ at.bytes_left text.now }
{
    text.byte() == mark && text.byte_after(1) == mark && text.byte_after(2) == mark
}

/// The quotes that begin a string here.
pub fn quote_at(text: &Cursor<'_>) -> Quote
    ensures quote { result ≡ spec.quote_at text.now }
    ensures mark { result.mark ≡ at.byte text.now }
    ensures within { 0 < result.mark → quote_len result ≤ at.bytes_left text.now }
{
    let mark = text.byte();
    Quote {
        mark,
        is_triple: stands_thrice(mark, text),
    }
}

/// Whether the quotes that end the string stand here.
fn closes(quote: Quote, text: &Cursor<'_>) -> bool
    ensures closes { result ≡ spec.closes quote text.now }
    ensures mark { IsTrue result → at.byte text.now ≡ quote.mark }
    ensures within { 0 < quote.mark → IsTrue result → quote_len quote ≤ at.bytes_left text.now }
{
    if quote.is_triple {
        stands_thrice(quote.mark, text)
    } else {
        text.byte() == quote.mark
    }
}

/// The value of a hexadecimal digit.
fn hex_digit(b: u8) -> Option<u32>
    ensures value { result ≡ HexDigit b }
    ensures small { IfSome result (λ d. d < 16) }
    ensures ascii { IfSome result (λ d. b < 128) }
{
    match b {
        b'0'..=b'9' => Some(u32::from(b - 48)),
        b'a'..=b'f' => Some(u32::from(b - 87)),
        b'A'..=b'F' => Some(u32::from(b - 55)),
        _ => None,
    }
}

/// The number that the first two bytes make as hexadecimal digits.
fn two_digits(bytes: &[u8]) -> Option<u32>
    ensures value { result ≡ hex_value 2 0 bytes.now }
    ensures small { IfSome result (λ c. c < 256) }
    ensures last { IfSome result (λ c. slice_index bytes.now 1 < 128) }
{
    match bytes {
        [a, b, ..] => Some(16 * hex_digit(*a)? + hex_digit(*b)?),
        _ => None,
    }
}

/// The number that the first four bytes make as hexadecimal digits.
fn four_digits(bytes: &[u8]) -> Option<u32>
    ensures value { result ≡ hex_value 4 0 bytes.now }
    ensures small { IfSome result (λ c. c < 65536) }
    ensures last { IfSome result (λ c. slice_index bytes.now 3 < 128) }
{
    match bytes {
        [a, b, c, d, ..] => {
            let high = 16 * hex_digit(*a)? + hex_digit(*b)?;
            Some(256 * high + 16 * hex_digit(*c)? + hex_digit(*d)?)
        }
        _ => None,
    }
}

/// What a backslash before these bytes begins: a character, and how many of the bytes spell it.
pub fn escape_of(bytes: &[u8]) -> Option<(u32, usize)>
    ensures value { result ≡ escape bytes.now }
    ensures within { IfSome result (λ e. e.1 ≤ length bytes.now) }
    ensures character { IfSome result (λ e. IsScalar e.0) }
    ensures last { IfSome result (λ e. slice_index bytes.now (e.1 - 1) < 128) }
{
    match bytes {
        [b @ (b'\\' | b'\'' | b'"'), ..] => Some((u32::from(*b), 1)),
        [b'n', ..] => Some((10, 1)),
        [b'r', ..] => Some((13, 1)),
        [b't', ..] => Some((9, 1)),
        [b'x', digits @ ..] => Some((two_digits(digits)?, 3)),
        [b'u', digits @ ..] => match four_digits(digits)? {
            0xD800..=0xDFFF => None,
            code => Some((code, 5)),
        },
        _ => None,
    }
}

/// Passes one byte of a string, or one escape.
#[tactic(auto, using(crate::proofs::Rules::piece_rules))]
fn pass_piece(text: &mut Cursor<'_>) -> Result<(), LexFault>
    requires { 0 < at.bytes_left text.old }
    ensures comes { Meets (λ u. u) (IsPiece text.old) result text.new }
    ensures shorter { OnOk result (at.bytes_left text.new < at.bytes_left text.old) }
    ensures forward { text.old.at ≤ text.new.at }
    ensures same_text { text.new.text ≡ text.old.text }
{
    if let Some(kind) = text.stray() {
        return Err(text.fault(kind));
    }
    if !is_backslash(text.byte()) {
        text.pass(1);
        return Ok(());
    }
    let Some((_code, len)) = escape_of(text.behind(1)) else {
        return Err(text.fault(LexKind::BadEscape));
    };
    text.pass(1 + len);
    Ok(())
}

/// Passes the bytes of a string that begins at `start`, and its closing quotes.
#[tactic(auto, using(crate::proofs::Rules::body_rules))]
pub fn pass_body(quote: Quote, start: &Cursor<'_>, text: &mut Cursor<'_>) -> Result<(), LexFault>
    requires { 0 < quote.mark }
    ensures comes { Meets (λ u. u) (IsBody quote start.now text.old) result text.new }
    ensures no_longer { OnOk result (at.bytes_left text.new ≤ at.bytes_left text.old) }
    ensures closed { OnOk result (ClosedBetween quote text.old text.new) }
    ensures same_text { text.new.text ≡ text.old.text }
{
    'body: while !text.is_at_end() {
        if text.is_broken() {
            return Err(text.fault(LexKind::NotUtf8));
        }
        if closes(quote, text) {
            text.pass(quote.len());
            return Ok(());
        }
        if text.is_line_end() {
            if !quote.is_triple {
                return Err(start.fault(LexKind::OpenString));
            }
            text.pass_line();
        } else {
            pass_piece(text)?;
        }
    }
    Err(start.fault(LexKind::OpenString))
}
