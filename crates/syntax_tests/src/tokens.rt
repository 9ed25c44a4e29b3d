//! Lines of tokens, and the texts of strings.

use crate::outcome::lexed;
use py_lexer::{LexError, Line, Token, TokenKind, lex, str_text};
use sf_value::Text;
use std::alloc::{AllocError, Global};
use std::test::Fail;
use test_support::{Case, hold_cases, hold_text};

/// The text of the string that a text begins with.
fn first_string(alloc: Global, text: &[u8]) -> Result<Option<Text>, LexError> {
    let lines = lex(alloc, text)?;
    let Some(line) = lines.get(0) else {
        return Ok(None);
    };
    let Some(token) = line.tokens.get(0) else {
        return Ok(None);
    };
    match token.kind {
        TokenKind::Str => Ok(Some(str_text(alloc, text, token)?)),
        _ => Ok(None),
    }
}

/// The same as a text.
fn string_told(alloc: Global, text: &[u8]) -> Result<String, Fail> {
    match first_string(alloc, text) {
        Ok(Some(found)) => {
            let told = String::from_str(alloc, found.as_str());
            drop(found);
            Ok(told?)
        }
        _ => Err(Fail::from("no string")),
    }
}

#[test]
fn a_string_has_its_text(rt: HostRuntime) -> Result<(), Fail> {
    let cases: [Case<'_, &[u8]>; 9] = [
        ("two escapes", b"'a\\n\\x41\\\\' 1", "a\nA\\"),
        ("the quote itself", b"'\\'' ", "'"),
        ("the other quote", b"'\\\"'", "\""),
        ("a return", b"'\\r'", "\r"),
        ("a tab", b"'\\t'", "\t"),
        ("a line end", b"\"\"\"a\r\nb\"\"\"", "a\nb"),
        ("e acute thrice", b"'\xc3\xa9\\xE9\\u00e9'", "ééé"),
        ("the euro sign", b"'\\u20AC'", "\u{20ac}"),
        ("nothing", b"''", ""),
    ];
    hold_cases(rt.alloc(), &cases, |alloc, text| {
        string_told(alloc, text)
    })
}

/// A line by how deep it stands, and its tokens by their kinds, bytes and places.
fn line_told(alloc: Global, line: &Line) -> Result<String, AllocError> {
    let mut told = format!(in alloc; "{} deep:", line.column)?;
    for token in line.tokens.as_slice() {
        let Token {
            kind,
            start,
            end,
            place,
        } = token;
        let token = format!(in alloc; " {kind:?} {start}-{end} at {}:{};", place.line, place.col)?;
        told.push_str(token.as_str())?;
    }
    Ok(told)
}

fn lines_told(alloc: Global, lines: &[Line]) -> Result<String, AllocError> {
    let mut told = String::new(alloc);
    for line in lines {
        told.push_str(line_told(alloc, line)?.as_str())?;
        told.push('\n')?;
    }
    Ok(told)
}

/// The lines of a text.
fn told(alloc: Global, text: &[u8]) -> Result<String, Fail> {
    let Ok(lines) = lex(alloc, text) else {
        return Err(Fail::from("no lines"));
    };
    let told = lines_told(alloc, lines.as_slice());
    drop(lines);
    Ok(told?)
}

const TWO_LINES: &str = "0 deep: Word 0-1 at 1:1; Sign(19) 2-3 at 1:3; Int(10) 4-7 at 1:5;
2 deep: Word 10-11 at 2:3; Sign(0) 12-15 at 2:5; Str 16-24 at 2:9;
";

#[test]
fn a_text_has_lines_of_tokens(rt: HostRuntime) -> Result<(), Fail> {
    let text = b"a = 1_0\n  b //= '\\x41\\n'\n";
    hold_text(told(rt.alloc(), text), TWO_LINES)
}

#[test]
fn the_first_fault_is_told_with_its_place(rt: HostRuntime) -> Result<(), Fail> {
    let found = lexed(rt.alloc(), b"  a\n b $\n");
    hold_text(found, "2:2: BadDedent")
}
