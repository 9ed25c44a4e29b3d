//! From a text to its tree, and to the method that a row of a table stands in, for the crates of tests.
#![tactic(auto)]

use py_lexer::lex;
use py_parser::{Parsed, parse};
use py_tree::{Method, Stmt};
use std::alloc::Global;
use std::test::Fail;
use test_support::{Setting, text_in};

/// The tree of a text.
pub fn parsed(alloc: Global, text: &str) -> Result<Parsed, Fail> {
    let Ok(lines) = lex(alloc, text.as_bytes()) else {
        return Err(Fail::from("the text has no lines"));
    };
    let tree = parse(alloc, &lines, text.as_bytes());
    drop(lines);
    match tree {
        Ok(tree) => Ok(tree),
        Err(_) => Err(Fail::from("the text has no tree")),
    }
}

/// The tree of a row in its setting.
pub fn tree_in(alloc: Global, setting: Setting, lines: &str) -> Result<Parsed, Fail> {
    let text = text_in(alloc, setting, lines)?;
    let tree = parsed(alloc, text.as_str());
    drop(text);
    tree
}

/// The last method of the first class.
pub fn last_method(tree: &Parsed) -> Option<&Method> {
    let class = tree.program.classes.get(0)?;
    class.members.as_slice().last()
}

/// The statements of the last method of the first class.
pub fn written(tree: &Parsed) -> &[Stmt] {
    match last_method(tree) {
        Some(method) => method.body.as_slice(),
        None => &[],
    }
}
