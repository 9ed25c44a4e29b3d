//! What the watch is told: one graph, and then the events; and nothing by the commands that run no graph.

use crate::batches::CARRIED;
use entity_compiler::{Compiled, compile};
use memory_calls::{Answer, NO_FAULTS, call};
use operator_graph::{MemWatch, Note};
use std::alloc::{AllocError, Global};
use std::test::Fail;
use test_support::{Case, SHOP, hold_cases, hold_text};

fn call_shop(alloc: Global, words: &[&str]) -> Result<Answer, AllocError> {
    call(
        alloc,
        words,
        "shop.py",
        SHOP.as_bytes(),
        CARRIED.as_bytes(),
        NO_FAULTS,
    )
}

/// How many graphs and how many steps a watch was told, where it tells it.
fn counts(watch: &MemWatch) -> Option<(u64, u64)> {
    let notes = watch.notes()?;
    let mut graphs = 0u64;
    let mut steps = 0u64;
    for note in notes.as_slice() {
        match note {
            Note::Graph(_) => graphs = graphs.saturating_add(1),
            Note::Step(_, _) => steps = steps.saturating_add(1),
        }
    }
    Some((graphs, steps))
}

/// How many graphs and how many steps are told by a call with these words.
fn counts_told(alloc: Global, words: &&[&str]) -> Result<String, Fail> {
    let answer = call_shop(alloc, words)?;
    let counts = counts(&answer.watch);
    drop(answer);
    Ok(format!(in alloc; "{counts:?}")?)
}

const CALLS: [Case<'static, &[&str]>; 7] = [
    ("check", &["check", "shop.py"], "Some((0, 0))"),
    ("compile", &["compile", "shop.py"], "Some((1, 0))"),
    ("local", &["local", "shop.py"], "Some((0, 0))"),
    (
        "three at a time",
        &["run", "shop.py", "--batch", "3"],
        "Some((1, 44))",
    ),
    (
        "one at a time",
        &["run", "shop.py", "--batch", "1"],
        "Some((1, 18))",
    ),
    (
        "a store without room",
        &["run", "shop.py", "--store", "s"],
        "Some((0, 0))",
    ),
    (
        "generated work",
        &["gen", "--number", "7", "--size", "3"],
        "Some((1, 3))",
    ),
];

#[test]
fn graph_is_told_once_and_then_each_event(rt: HostRuntime) -> Result<(), Fail> {
    hold_cases(rt.alloc(), &CALLS, counts_told)
}

/// The text of the graph that a watch was told first, with the names of a program.
fn first_graph(alloc: Global, watch: &MemWatch, compiled: &Compiled) -> Result<String, Fail> {
    let notes = watch.notes().ok_or("the watch tells nothing")?;
    let Some(Note::Graph(graph)) = notes.as_slice().first() else {
        return Err(Fail::from("no graph was told"));
    };
    let text = graph.text(alloc, compiled.program().names())?;
    let told = String::from_str(alloc, text.as_str());
    drop(text);
    Ok(told?)
}

/// The same with the names of the shop.
fn graph_of_shop(alloc: Global, watch: &MemWatch) -> Result<String, Fail> {
    let Ok(compiled) = compile(alloc, SHOP.as_bytes()) else {
        return Err(Fail::from("the shop isn't compiled"));
    };
    let told = first_graph(alloc, watch, &compiled);
    drop(compiled);
    told
}

/// The text of the graph that is told by a call with these words.
fn told_graph(alloc: Global, words: &[&str]) -> Result<String, Fail> {
    let answer = call_shop(alloc, words)?;
    let told = graph_of_shop(alloc, &answer.watch);
    drop(answer);
    told
}

/// What `compile` prints.
fn printed_graph(alloc: Global) -> Result<String, Fail> {
    let answer = call_shop(alloc, &["compile", "shop.py"])?;
    let text = str::from_utf8(answer.out.bytes()).unwrap_or("no text");
    let printed = String::from_str(alloc, text);
    drop(answer);
    Ok(printed?)
}

/// `compile` prints the graph that it tells, and `run` tells the same one.
#[test]
fn graph_that_is_told_is_printed(rt: HostRuntime) -> Result<(), Fail> {
    let printed = printed_graph(rt.alloc())?;
    let compiled = told_graph(rt.alloc(), &["compile", "shop.py"]);
    hold_text(compiled, printed.as_str())?;
    let ran = told_graph(rt.alloc(), &["run", "shop.py"]);
    hold_text(ran, printed.as_str())
}
