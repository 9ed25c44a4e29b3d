//! A text that has a tree, and one with a token that is refused.

use py_lexer::lex;
use py_parser::{Parsed, SyntaxError, parse};
use std::alloc::{AllocError, Global};
use std::test::Fail;
use test_support::{COUNTER, hold_text};

/// How many members each class of a tree has.
fn members_told(alloc: Global, tree: &Parsed) -> Result<String, AllocError> {
    let mut told = String::new(alloc);
    for class in tree.program.classes.as_slice() {
        told.push_str(format!(in alloc; "{};", class.members.len())?.as_str())?;
    }
    Ok(told)
}

/// How many members the classes of a text have, or the line and kind of its fault.
fn read(alloc: Global, text: &str) -> Result<String, AllocError> {
    let text = text.as_bytes();
    let Ok(lines) = lex(alloc, text) else {
        return String::from_str(alloc, "no lines");
    };
    let tree = parse(alloc, &lines, text);
    drop(lines);
    match tree {
        Ok(tree) => {
            let told = members_told(alloc, &tree);
            drop(tree);
            told
        }
        Err(SyntaxError::Fault(fault)) => {
            format!(in alloc; "{}: {:?}", fault.place.line, fault.kind)
        }
        Err(SyntaxError::NoMemory) => Err(AllocError),
    }
}

#[test]
fn a_class_has_a_tree(rt: HostRuntime) -> Result<(), Fail> {
    hold_text(read(rt.alloc(), COUNTER), "3;")
}

const DELETED: &str = "@entity
class C:
  def m(self): del self
";

#[test]
fn a_word_that_is_left_out_is_told(rt: HostRuntime) -> Result<(), Fail> {
    hold_text(read(rt.alloc(), DELETED), "3: LeftOut")
}
