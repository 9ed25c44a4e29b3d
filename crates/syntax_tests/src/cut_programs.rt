//! A program that ends too early: every prefix of it, and what the lexer makes of that.

use py_lexer::{LexError, LexKind, lex};
use std::alloc::{AllocError, Global};
use std::test::Fail;
use test_support::hold_text;

/// A program with strings, brackets over lines and comments.
const SHELF: &[u8] = b"from stateflow import entity  # the one import

@entity
class Shelf:
    def __init__(self, name: str, room: int):
        self.name: str = name
        self.room: int = room
        self.things: List[str] = [
            'none', # behind it a line that is empty

        ]

    def __key__(self) -> str:
        return self.name

    def put(self, thing: 'str', size: int) -> bool:
        if size > (self.room
                   - 10):
            return False
        self.room -= size
        for other in self.things:
            if other == thing: return False
        self.things += [thing]
        return True
";

/// The fault of a text that ends within a string or within brackets.
fn fault_of_the_end(text: &[u8]) -> Option<LexKind> {
    let mut is_string = false;
    let mut depth = 0u32;
    for byte in text {
        match byte {
            b'\'' => is_string = !is_string,
            b'(' | b'[' => depth = depth.saturating_add(1),
            b')' | b']' => depth = depth.saturating_sub(1),
            _ => {}
        }
    }
    match (is_string, depth) {
        (true, _) => Some(LexKind::OpenString),
        (false, 0) => None,
        _ => Some(LexKind::OpenBracket),
    }
}

/// The kind of a text's fault.
fn fault_of(alloc: Global, text: &[u8]) -> Option<LexKind> {
    match lex(alloc, text) {
        Err(LexError::Fault(fault)) => Some(fault.kind),
        _ => None,
    }
}

/// The fault of the first front of the program that has another one than its end gives, or nothing.
fn other_front(alloc: Global) -> Result<String, AllocError> {
    for length in 0..=SHELF.len() {
        let text = &SHELF[..length];
        let found = fault_of(alloc, text);
        if found != fault_of_the_end(text) {
            return format!(in alloc; "{length} bytes: {found:?}");
        }
    }
    Ok(String::new(alloc))
}

#[test]
fn a_program_that_is_cut_ends_within_a_string_or_a_bracket_or_has_lines(
    rt: HostRuntime,
) -> Result<(), Fail> {
    hold_text(other_front(rt.alloc()), "")
}
