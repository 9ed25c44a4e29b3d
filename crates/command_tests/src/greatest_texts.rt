//! Checks of the greatest texts that are accepted, of texts that are one step greater, and of each front of a program.

use memory_calls::{Answer, NO_FAULTS, call};
use std::alloc::{AllocError, Global};
use std::test::Fail;
use test_support::{Case, SHOP, hold_cases};

/// The line that a check writes, on its output or on its error stream.
fn line_told(alloc: Global, answer: &Answer) -> Result<String, AllocError> {
    let bytes = match answer.status {
        0 => answer.out.bytes(),
        _ => answer.err.bytes(),
    };
    let line = str::from_utf8(bytes).unwrap_or("no text");
    format!(in alloc; "{}: {}", answer.status, line.trim_end())
}

/// The status of a check of this text, and its line.
fn checked(alloc: Global, text: &[u8]) -> Result<String, AllocError> {
    let answer = call(alloc, &["check", "a.py"], "a.py", text, b"", NO_FAULTS)?;
    let told = line_told(alloc, &answer);
    drop(answer);
    told
}

/// So many line feeds.
fn feeds_told(alloc: Global, count: &usize) -> Result<String, Fail> {
    let text = vec![in alloc; b'\n'; *count]?;
    let told = checked(alloc, text.as_slice());
    drop(text);
    Ok(told?)
}

#[test]
fn a_text_has_1_mib_at_most(rt: HostRuntime) -> Result<(), Fail> {
    let cases = [
        ("the greatest", 1_048_576, "0: ok: 0 classes, 0 methods"),
        (
            "one byte more",
            1_048_577,
            "1: stateflow: a.py:1:1: TooLong",
        ),
    ];
    hold_cases(rt.alloc(), &cases, feeds_told)
}

/// A class with a method that gives what stands behind. That begins at column 32 of line 6.
const HEAD: &str = "@entity
class A:
    def __init__(self, k: str):
        self.k: str = k
    def __key__(self): return self.k
    def f(self) -> int: return ";

/// A number within so many pairs of brackets.
fn brackets_told(alloc: Global, count: &usize) -> Result<String, Fail> {
    let opened = "(".repeat(alloc, *count)?;
    let closed = ")".repeat(alloc, *count)?;
    let text = format!(in alloc; "{HEAD}{opened}1{closed}")?;
    Ok(checked(alloc, text.as_bytes())?)
}

#[test]
fn a_method_opens_64_levels_at_most(rt: HostRuntime) -> Result<(), Fail> {
    let cases = [
        ("the deepest", 63, "0: ok: 1 classes, 1 methods"),
        ("one bracket more", 64, "1: stateflow: a.py:6:95: TooDeep"),
    ];
    hold_cases(rt.alloc(), &cases, brackets_told)
}

/// A text with so many classes of five lines.
fn classes(alloc: Global, count: u32) -> Result<String, AllocError> {
    let mut text = String::new(alloc);
    for number in 0..count {
        let name = format!(in alloc; "@entity\nclass C{number}:\n")?;
        text.push_str(name.as_str())?;
        text.push_str("    def __init__(self, k: str):\n        self.k: str = k\n")?;
        text.push_str("    def __key__(self): return self.k\n")?;
    }
    Ok(text)
}

fn classes_told(alloc: Global, count: &u32) -> Result<String, Fail> {
    let text = classes(alloc, *count)?;
    let told = checked(alloc, text.as_bytes());
    drop(text);
    Ok(told?)
}

#[test]
fn a_program_has_256_classes_at_most(rt: HostRuntime) -> Result<(), Fail> {
    let cases: [Case<'_, u32>; 2] = [
        ("the most", 256, "0: ok: 256 classes, 0 methods"),
        ("one class more", 257, "1: stateflow: a.py:1282:7: TooMany"),
    ];
    hold_cases(rt.alloc(), &cases, classes_told)
}

/// The kinds of faults: of lines of tokens, of the grammar, of classes, and of types and statements.
const KINDS: &str =
    "TooLong NotUtf8 TabIndent BadDedent BadEscape OpenString BadNumber LiteralTooWide BadCharacter OpenBracket \
    Unexpected LeftOut TooDeep \
    TooMany ReservedName DuplicateClass DuplicateMember MissingAnnotation UnknownType NestedOptional InitForm KeyForm \
    UnknownName Unassigned RemoteField UnknownField NoneUse Operand UnknownMethod ArgCount Mismatch EmptyListType \
    LocalRetyped KeyAssigned LoopWord MissingReturn";

fn is_kind(word: &str) -> bool {
    for kind in KINDS.split(' ') {
        if kind == word {
            return true;
        }
    }
    false
}

/// Whether a text was accepted, or refused with a fault of a known kind.
fn is_judged(told: &str) -> bool {
    let Some((front, last)) = told.rsplit_once(": ") else {
        return false;
    };
    front == "0: ok" || (front.starts_with("1: stateflow: a.py:") && is_kind(last))
}

#[test]
fn each_front_of_a_program_is_accepted_or_refused(rt: HostRuntime) -> Result<(), Fail> {
    let text = SHOP.as_bytes();
    for length in 0..=text.len() {
        let told = checked(rt.alloc(), &text[..length])?;
        if !is_judged(told.as_str()) {
            return Err(Fail::new(format_args!("the first {length} bytes: {told}")));
        }
    }
    Ok(())
}
