//! What a text is by the lexical rules, and by these and the grammar.

use py_lexer::{LexError, lex};
use py_parser::{Parsed, SyntaxError, parse};
use std::alloc::{AllocError, Global};
use std::test::Fail;
use test_support::{Case, hold_cases};

/// The place and kind of a text's lexical fault, or that it has lines.
pub fn lexed(alloc: Global, text: &[u8]) -> Result<String, AllocError> {
    match lex(alloc, text) {
        Ok(lines) => {
            drop(lines);
            String::from_str(alloc, "lines")
        }
        Err(LexError::Fault(fault)) => format!(in alloc;
            "{}:{}: {:?}",
            fault.place.line, fault.place.col, fault.kind
        ),
        Err(LexError::NoMemory) => Err(AllocError),
    }
}

/// The place and kind of the first refused token, or that there is a tree.
fn tree_told(alloc: Global, tree: Result<Parsed, SyntaxError>) -> Result<String, AllocError> {
    match tree {
        Ok(tree) => {
            drop(tree);
            String::from_str(alloc, "tree")
        }
        Err(SyntaxError::Fault(fault)) => format!(in alloc;
            "{}:{}: {:?}",
            fault.place.line, fault.place.col, fault.kind
        ),
        Err(SyntaxError::NoMemory) => Err(AllocError),
    }
}

/// The place and kind of a text's first refused token, or that it has a tree, or no lines.
pub fn parsed(alloc: Global, text: &[u8]) -> Result<String, AllocError> {
    match lex(alloc, text) {
        Ok(lines) => {
            let tree = parse(alloc, &lines, text);
            drop(lines);
            tree_told(alloc, tree)
        }
        Err(LexError::Fault(_)) => String::from_str(alloc, "no lines"),
        Err(LexError::NoMemory) => Err(AllocError),
    }
}

/// Asserts what the texts of cases are by the lexical rules and the grammar.
pub fn hold_parsed(alloc: Global, cases: &[Case<'_, &[u8]>]) -> Result<(), Fail> {
    hold_cases(alloc, cases, |alloc, text| Ok(parsed(alloc, text)?))
}
