//! A program of three classes, whole and with a token dropped, doubled or replaced.

use crate::outcome::parsed;
use py_lexer::{LexError, Line, Token, lex};
use py_parser::{Parsed, SyntaxError, parse};
use std::alloc::{AllocError, Global};
use std::process::Abort;
use std::test::Fail;
use test_support::{SHOP, hold_text};

/// The line on which a refused token stands, or 0 where there is a tree.
fn line_refused(tree: Result<Parsed, SyntaxError>) -> Result<u32, AllocError> {
    match tree {
        Ok(tree) => {
            drop(tree);
            Ok(0)
        }
        Err(SyntaxError::Fault(fault)) => Ok(fault.place.line),
        Err(SyntaxError::NoMemory) => Err(AllocError),
    }
}

/// The line on which a fault of a text stands, or 0 where it has a tree.
fn line_of_fault(alloc: Global, text: &[u8]) -> Result<u32, AllocError> {
    match lex(alloc, text) {
        Ok(lines) => {
            let tree = parse(alloc, &lines, text);
            drop(lines);
            line_refused(tree)
        }
        Err(LexError::Fault(fault)) => Ok(fault.place.line),
        Err(LexError::NoMemory) => Err(AllocError),
    }
}

/// The bytes of a text from one place up to another.
fn part(text: &[u8], from: u32, upto: u32) -> &[u8] {
    let upto = text.len().min(upto as usize);
    let from = upto.min(from as usize);
    &text[from..upto]
}

/// Whether a program with these bytes in place of a token has a tree, or a fault on the token's line
/// or a later one.
fn is_told(alloc: Global, token: &Token, bytes: &[u8]) -> Result<bool, AllocError> {
    let mut text = Vec::from_slice(alloc, part(SHOP.as_bytes(), 0, token.start))?;
    text.extend_from_slice(bytes)?;
    text.extend_from_slice(part(SHOP.as_bytes(), token.end, u32::MAX))?;
    let line = line_of_fault(alloc, text.as_slice())?;
    Ok(line == 0 || token.place.line <= line)
}

/// The same of the token dropped, doubled and replaced.
fn is_told_each_way(alloc: Global, token: &Token) -> Result<bool, AllocError> {
    let own = part(SHOP.as_bytes(), token.start, token.end);
    let mut twice = Vec::from_slice(alloc, own)?;
    twice.push(b' ')?;
    twice.extend_from_slice(own)?;
    Ok(
        is_told(alloc, token, b" ")?
            && is_told(alloc, token, twice.as_slice())?
            && is_told(alloc, token, b" else ")?,
    )
}

/// How many tokens of a line of the program stand on these lines, if each is told.
fn tokens_of_line(
    alloc: Global,
    line: &Line,
    from: u32,
    upto: u32,
) -> Result<Option<u32>, AllocError> {
    let mut count = 0u32;
    for token in line.tokens.as_slice() {
        if from <= token.place.line && token.place.line < upto {
            if !is_told_each_way(alloc, token)? {
                return Ok(None);
            }
            count = count.saturating_add(1);
        }
    }
    Ok(Some(count))
}

/// How many tokens of these lines of tokens stand on these lines of the program, if each is told.
fn tokens_of_lines(
    alloc: Global,
    lines: &[Line],
    from: u32,
    upto: u32,
) -> Result<Option<u32>, AllocError> {
    let mut count = 0u32;
    for line in lines {
        match tokens_of_line(alloc, line, from, upto)? {
            Some(more) => count = count.saturating_add(more),
            None => return Ok(None),
        }
    }
    Ok(Some(count))
}

/// How many tokens stand on these lines of the program, if each is told.
fn tokens_told(alloc: Global, from: u32, upto: u32) -> Result<Option<u32>, AllocError> {
    let lines = match lex(alloc, SHOP.as_bytes()) {
        Ok(lines) => lines,
        Err(LexError::Fault(_)) => return Ok(None),
        Err(LexError::NoMemory) => return Err(AllocError),
    };
    let count = tokens_of_lines(alloc, lines.as_slice(), from, upto);
    drop(lines);
    count
}

/// Asserts that so many tokens stand on these lines of the program, and that each is told.
fn hold_tokens(
    rt: &impl Abort,
    alloc: Global,
    from: u32,
    upto: u32,
    count: u32,
) -> Result<(), Fail> {
    let told = tokens_told(alloc, from, upto)?;
    assert_eq!(rt; told, Some(count));
    Ok(())
}

#[test]
fn the_shop_has_a_tree(rt: HostRuntime) -> Result<(), Fail> {
    hold_text(parsed(rt.alloc(), SHOP.as_bytes()), "tree")
}

#[test]
fn tokens_of_lines_1_to_11_are_told_each_way(rt: HostRuntime) -> Result<(), Fail> {
    hold_tokens(&rt, rt.alloc(), 1, 12, 50)
}

#[test]
fn tokens_of_lines_12_to_21_are_told_each_way(rt: HostRuntime) -> Result<(), Fail> {
    hold_tokens(&rt, rt.alloc(), 12, 22, 50)
}

#[test]
fn tokens_of_lines_22_to_32_are_told_each_way(rt: HostRuntime) -> Result<(), Fail> {
    hold_tokens(&rt, rt.alloc(), 22, 33, 41)
}

#[test]
fn tokens_of_lines_33_to_43_are_told_each_way(rt: HostRuntime) -> Result<(), Fail> {
    hold_tokens(&rt, rt.alloc(), 33, 44, 56)
}

#[test]
fn tokens_of_lines_44_to_53_are_told_each_way(rt: HostRuntime) -> Result<(), Fail> {
    hold_tokens(&rt, rt.alloc(), 44, 54, 34)
}

#[test]
fn tokens_of_lines_54_to_69_are_told_each_way(rt: HostRuntime) -> Result<(), Fail> {
    hold_tokens(&rt, rt.alloc(), 54, 70, 56)
}
