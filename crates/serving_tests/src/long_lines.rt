//! Lines as long as a line may be, and a byte longer. A return before the line's end counts.

use crate::echo::{between, written};
use memory_calls::{NO_FAULTS, call};
use std::alloc::{AllocError, Global};
use std::test::Fail;
use test_support::{Case, NUM, hold_cases};

/// A command, how many letters stand in the first line, and how that ends. Behind it stands a creation.
type Long = (&'static str, usize, &'static str);

const CREATION: &str = r#"{"id":"a","class":"Num","new":["p",1]}"#;

/// The lines that are given.
fn lines(alloc: Global, letters: usize, end: &str) -> Result<Vec<u8>, AllocError> {
    let mut lines = vec![in alloc; b'a'; letters]?;
    lines.extend_from_slice(end.as_bytes())?;
    lines.extend_from_slice(CREATION.as_bytes())?;
    Ok(lines)
}

/// What a command writes for these lines.
fn answers(alloc: Global, command: &str, lines: &[u8]) -> Result<String, AllocError> {
    let words = [command, "num.py"];
    let answer = call(alloc, &words, "num.py", NUM.as_bytes(), lines, NO_FAULTS)?;
    let told = written(alloc, &answer);
    drop(answer);
    told
}

/// The words in which the first line is refused, where the second one is answered.
fn refusal_in(answers: &str) -> &str {
    let behind = "\",\"line\":1}\n{\"id\":\"a\",\"ok\":\"p\",\"seq\":1}\n";
    between(answers, "{\"bad\":\"", behind).unwrap_or("another answer")
}

fn told(alloc: Global, long: &Long) -> Result<String, Fail> {
    let (command, letters, end) = *long;
    let lines = lines(alloc, letters, end)?;
    let answers = answers(alloc, command, lines.as_slice());
    drop(lines);
    Ok(String::from_str(alloc, refusal_in(answers?.as_str()))?)
}

const ROWS: [Case<'static, Long>; 6] = [
    ("run, the longest", ("run", 1_048_576, "\n"), "not json"),
    (
        "run, a byte longer",
        ("run", 1_048_577, "\n"),
        "line too long",
    ),
    (
        "run, the longest with a return",
        ("run", 1_048_575, "\r\n"),
        "not json",
    ),
    (
        "run, a byte longer with a return",
        ("run", 1_048_576, "\r\n"),
        "line too long",
    ),
    ("local, the longest", ("local", 1_048_576, "\n"), "not json"),
    (
        "local, a byte longer",
        ("local", 1_048_577, "\n"),
        "line too long",
    ),
];

#[test]
fn a_line_has_1_mib_at_most(rt: HostRuntime) -> Result<(), Fail> {
    hold_cases(rt.alloc(), &ROWS, told)
}
