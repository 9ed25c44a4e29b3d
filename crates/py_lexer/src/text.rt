//! What a string literal stands for.

ghost use Rattle.std.specs.Prelude.{◌≡◌, ◌+◌, ◌<◌, ◌≤◌, ◌++◌, ◌-◌, slice_index, length, drop, encode_utf8, IfOk, OnOk, IsUtf8};
ghost use Rattle.std.specs.Char.{IsScalar};
ghost use Rattle.py_tree.specs.StringText.{quotes as Quotes, enclosed as Enclosed, escaped, unescaped as Unescaped, string_text};
ghost use Rattle.py_lexer.specs.declared.token.TokenKind.TheVariants.{Str};
ghost use Rattle.py_lexer.specs.Spans.{IsOf};
ghost use Rattle.py_lexer.specs.Views.{bytes_of};

use crate::strings::escape_of;
use crate::token::Token;
use crate::words::is_backslash;
use sf_value::Text;
use std::alloc::{AllocError, Global};

/// How many quotes begin a literal, and end it.
fn quotes(literal: &[u8]) -> usize
    ensures value { result ≡ Quotes literal.now }
    ensures small { result ≤ 3 }
{
    match literal {
        [a, b, c, _, _, _, ..] if a == b && b == c => 3,
        _ => 1,
    }
}

/// The bytes between a literal's quotes.
fn enclosed(literal: &[u8]) -> &[u8]
    requires { Quotes literal.now + Quotes literal.now ≤ length literal.now }
    ensures { result.now ≡ Enclosed literal.now }
{
    let width = quotes(literal);
    &literal[width..literal.len() - width]
}

/// The character of the escape that a backslash before these bytes begins, and how many of them spell it.
fn escaped_at(bytes: &[u8]) -> (char, usize)
    ensures value { result ≡ escaped bytes.now }
    ensures within { result.1 ≤ length bytes.now }
    ensures character { IsScalar result.0 }
    ensures last { 0 < result.1 → slice_index bytes.now (result.1 - 1) < 128 }
{
    let Some((code, len)) = escape_of(bytes) else {
        return ('\\', 0);
    };
    match char::from_u32(code) {
        Some(character) => (character, len),
        None => unreachable!(),
    }
}

/// Adds a character in UTF-8.
fn push_character(text: &mut Vec<u8>, character: char) -> Result<(), AllocError>
    ensures { OnOk result (text.new.items ≡ text.old.items ++ encode_utf8 character) }
{
    let mut room = [0; 4];
    text.extend_from_slice(character.encode_utf8(&mut room).as_bytes())
}

/// The bytes from a place on.
fn from_place(bytes: &[u8], at: usize) -> &[u8]
    requires { at ≤ length bytes.now }
    ensures { result.now ≡ drop at bytes.now }
{
    &bytes[at..]
}

/// The text of what a literal encloses, in UTF-8.
#[tactic(auto, using(crate::proofs::TextLaws::text_rules))]
fn unescaped(alloc: Global, bytes: &[u8]) -> Result<Vec<u8>, AllocError>
    requires { IsUtf8 bytes.now }
    ensures text { IfOk result (λ text. text.items ≡ Unescaped 0 bytes.now) }
    ensures utf8 { IfOk result (λ text. IsUtf8 text.items) }
{
    let mut text = Vec::new(alloc);
    let mut at = 0;
    'bytes: while at < bytes.len() {
        let byte = bytes[at];
        at += 1;
        if is_backslash(byte) {
            let (character, len) = escaped_at(from_place(bytes, at));
            push_character(&mut text, character)?;
            at += len;
        } else if byte != b'\r' {
            text.push(byte)?;
        }
    }
    Ok(text)
}

/// The text that a string stands for, of the text that it is a token of.
pub fn str_text(alloc: Global, text: &[u8], token: &Token) -> Result<Text, AllocError>
    requires string { token.now.kind ≡ Str }
    requires token_of { IsOf text.now token.now }
    ensures { IfOk result (λ made. made ≡ string_text (bytes_of text.now token.now)) }
{
    let literal = &text[token.start as usize..token.end as usize];
    let bytes = unescaped(alloc, enclosed(literal))?;
    Text::of(alloc, std::str::from_utf8(&bytes).unwrap())
}
