//! Tokens, one after another, up to the end of a logical line.

ghost use Rattle.std.specs.Prelude.{◌≡◌, ◌+◌, ◌<◌, ◌≤◌, ◌^◌, ℕ, List, [], map, length, take, IsUtf8, IsTrue, IfOk, OnOk};
ghost use Rattle.std.specs.Str.Lossy.{utf8_valid_len};
ghost use Rattle.py_tree.specs.Tokens.{LWord};
ghost use Rattle.py_lexer.specs.Cursor as at;
ghost use Rattle.py_lexer.specs.LogicalLines.{IsNumber, IsString, IsSign, IsToken, IsTokens};
ghost use Rattle.py_lexer.specs.LogicalLines as spec;
ghost use Rattle.py_lexer.specs.Spans.{IsOf, Rise};
ghost use Rattle.py_lexer.specs.Views.{plain_kind, plain_token, Closes, Comes, Meets};

use crate::cursor::Cursor;
use crate::fault::{LexError, LexFault, LexKind};
use crate::gaps::pass_gap;
use crate::signs::sign_of;
use crate::strings::{pass_body, quote_at};
use crate::token::{Token, TokenKind, Tokens};
use crate::words::{is_digit, is_letter, is_number, is_quote, value_of};
use py_tree::Place;
use sf_list::Sequence;
use std::alloc::{AllocError, Global};

/// The token from one place up to another.
#[tactic(auto, unfolding(crate::specs::LogicalLines::token))]
fn token(kind: TokenKind, start: &Cursor<'_>, end: &Cursor<'_>) -> Token
    ensures token { plain_token start.now.text result ≡ spec.token (plain_kind kind) start.now end.now }
    ensures kind { result.kind ≡ kind }
    ensures start { result.start ≡ start.now.at }
    ensures end { result.end ≡ end.now.at }
    ensures within { result.end ≤ length end.now.text }
    ensures line { result.place.line ≤ result.start + 1 }
    ensures col { result.place.col ≤ result.start + 1 }
{
    Token {
        kind,
        start: start.offset(),
        end: end.offset(),
        place: start.place(),
    }
}

/// A word.
#[tactic(auto, using(crate::proofs::SpanLaws::of_rules), unfolding(crate::specs::LogicalLines::behind_word))]
fn word(text: &mut Cursor<'_>) -> Token
    requires { IsTrue (at.is_letter (at.byte text.old)) }
    ensures token { plain_token text.old.text result ≡ spec.token LWord text.old (spec.behind_word text.old) }
    ensures behind { text.new ≡ spec.behind_word text.old }
    ensures of { IsOf text.old.text result }
    ensures start { result.start ≡ text.old.at }
    ensures end { result.end ≡ text.new.at }
    ensures shorter { at.bytes_left text.new < at.bytes_left text.old }
    ensures same_text { text.new.text ≡ text.old.text }
{
    let start = text.copy();
    text.pass(text.word_len());
    token(TokenKind::Word, &start, text)
}

/// A number.
#[tactic(auto, using(crate::proofs::Rules::number_rules, crate::proofs::SpanLaws::of_rules), unfolding(crate::specs::LogicalLines::behind_digits, crate::specs::LogicalLines::is_number))]
fn number(text: &mut Cursor<'_>) -> Result<Token, LexFault>
    requires { IsTrue (at.is_digit (at.byte text.old)) }
    ensures comes { Meets (plain_token text.old.text) (IsNumber text.old) result text.new }
    ensures of { IfOk result (λ t. IsOf text.old.text t) }
    ensures spans { IfOk result (λ t. (t.start ≡ text.old.at) × (t.end ≡ text.new.at)) }
    ensures shorter { OnOk result (at.bytes_left text.new < at.bytes_left text.old) }
    ensures same_text { text.new.text ≡ text.old.text }
{
    let run = text.digits();
    if !is_number(run, text.byte_after(run.len())) {
        return Err(text.fault(LexKind::BadNumber));
    }
    let Some(value) = value_of(run) else {
        return Err(text.fault(LexKind::LiteralTooWide));
    };
    let start = text.copy();
    text.pass(run.len());
    Ok(token(TokenKind::Int(value as i128), &start, text))
}

/// A string.
#[tactic(auto, using(crate::proofs::Rules::string_rules))]
fn string(text: &mut Cursor<'_>) -> Result<Token, LexFault>
    requires some { 0 < at.byte text.old }
    requires ascii { at.byte text.old < 128 }
    requires utf8 { IsUtf8 (take (utf8_valid_len text.old.text) text.old.text) }
    ensures comes { Meets (plain_token text.old.text) (IsString text.old) result text.new }
    ensures of { IfOk result (λ t. IsOf text.old.text t) }
    ensures spans { IfOk result (λ t. (t.start ≡ text.old.at) × (t.end ≡ text.new.at)) }
    ensures shorter { OnOk result (at.bytes_left text.new < at.bytes_left text.old) }
    ensures same_text { text.new.text ≡ text.old.text }
{
    let start = text.copy();
    let quote = quote_at(text);
    text.pass(quote.len());
    pass_body(quote, &start, text)?;
    Ok(token(TokenKind::Str, &start, text))
}

/// A sign.
#[tactic(auto, using(crate::proofs::Rules::sign_rules, crate::proofs::SpanLaws::of_rules), unfolding(crate::specs::Cursor::sign))]
fn sign(text: &mut Cursor<'_>) -> Result<Token, LexFault>
    ensures comes { Meets (plain_token text.old.text) (IsSign text.old) result text.new }
    ensures of { IfOk result (λ t. IsOf text.old.text t) }
    ensures spans { IfOk result (λ t. (t.start ≡ text.old.at) × (t.end ≡ text.new.at)) }
    ensures shorter { OnOk result (at.bytes_left text.new < at.bytes_left text.old) }
    ensures same_text { text.new.text ≡ text.old.text }
{
    let Some((number, len)) = sign_of(text.rest()) else {
        return Err(text.fault(LexKind::BadCharacter));
    };
    let start = text.copy();
    text.pass(len);
    Ok(token(TokenKind::Sign(number), &start, text))
}

/// The token that begins here.
#[tactic(auto, using(crate::proofs::Rules::token_rules))]
fn one_token(text: &mut Cursor<'_>) -> Result<Token, LexFault>
    ensures comes { Meets (plain_token text.old.text) (IsToken text.old) result text.new }
    ensures of { IfOk result (λ t. IsOf text.old.text t) }
    ensures spans { IfOk result (λ t. (t.start ≡ text.old.at) × (t.end ≡ text.new.at)) }
    ensures shorter { OnOk result (at.bytes_left text.new < at.bytes_left text.old) }
    ensures same_text { text.new.text ≡ text.old.text }
{
    if text.is_broken() {
        return Err(text.fault(LexKind::NotUtf8));
    }
    if is_letter(text.byte()) {
        return Ok(word(text));
    }
    if is_digit(text.byte()) {
        return number(text);
    }
    if is_quote(text.byte()) {
        return string(text);
    }
    sign(text)
}

const OPEN_PAREN: u8 = 11;

const CLOSE_PAREN: u8 = 12;

const OPEN_BRACKET: u8 = 13;

const CLOSE_BRACKET: u8 = 14;

/// What a token makes of the open brackets.
fn note_bracket(brackets: &mut Vec<Place>, token: &Token) -> Result<(), AllocError>
    ensures behind { OnOk result ((text : List ℕ) → brackets.new.items ≡ spec.open_behind brackets.old.items (plain_token text token.now)) }
{
    match token.kind {
        TokenKind::Sign(OPEN_PAREN | OPEN_BRACKET) => brackets.push(token.place)?,
        TokenKind::Sign(CLOSE_PAREN | CLOSE_BRACKET) => {
            brackets.pop();
        }
        _ => {}
    }
    Ok(())
}

/// A line's tokens, unless the text ends within one of these brackets.
fn closed(items: Tokens, brackets: &[Place]) -> Result<Tokens, LexError>
    ensures { Closes (spec.innermost brackets.now) items result }
{
    match brackets.last() {
        None => Ok(items),
        Some(place) => Err(LexError::Fault(LexFault {
            place: *place,
            kind: LexKind::OpenBracket,
        })),
    }
}

/// The tokens of the logical line that begins here.
#[tactic(auto, using(crate::proofs::LineRules::tokens_rules, crate::proofs::SpanLaws::rise_rules))]
pub fn tokens(alloc: Global, text: &mut Cursor<'_>) -> Result<Tokens, LexError>
    ensures comes { Comes (map (plain_token text.old.text)) (IsTokens [] text.old) result text.new }
    ensures rise { IfOk result (λ ts. Rise text.old.text text.old.at ts text.new.at) }
    ensures shorter { OnOk result (at.bytes_left text.new < at.bytes_left text.old) }
    ensures same_text { text.new.text ≡ text.old.text }
{
    let mut items = Sequence::new(alloc);
    let mut brackets = Vec::new(alloc);
    'tokens: loop {
        let token = one_token(text)?;
        note_bracket(&mut brackets, &token)?;
        items.push(alloc, token)?;
        pass_gap(brackets.len(), text)?;
        if text.ends() {
            return closed(items, &brackets);
        }
    }
}
