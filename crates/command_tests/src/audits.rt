//! What `audit` says of a run.

use memory_calls::{Answer, Faults, NO_FAULTS, call_on_two};
use std::alloc::{AllocError, Global};
use std::test::Fail;
use test_support::{Case, SHOP, hold_cases, hold_table};

/// The status of a call, and what it printed and said, with `/` for the end of a line.
fn answer_told(alloc: Global, answer: &Answer) -> Result<String, AllocError> {
    let status = answer.status;
    let printed = str::from_utf8(answer.out.bytes()).unwrap_or("no text");
    let said = str::from_utf8(answer.err.bytes()).unwrap_or("no text");
    let told = format!(in alloc; "{status} {printed}{said}")?;
    told.as_str().replace(alloc, '\n', "/")
}

/// What an audit of the shop comes to, of a run in this file.
fn audited(alloc: Global, name: &str, run: &str, faults: Faults<'_>) -> Result<String, Fail> {
    let words = ["audit", "shop.py", "run"];
    let shop = ("shop.py", SHOP.as_bytes());
    let answer = call_on_two(alloc, &words, shop, (name, run.as_bytes()), faults)?;
    let told = answer_told(alloc, &answer);
    drop(answer);
    Ok(told?)
}

/// Where each read of the input fails.
const UNREAD: Faults<'static> = Faults {
    input: &[1],
    ..NO_FAULTS
};

fn told(alloc: Global, text: &str) -> Result<String, Fail> {
    audited(alloc, "run", text, UNREAD)
}

const RUNS: &str = r#"
    an empty file        |   | 0 serial: 0 entries/
    a creation           | {"class":"Item","id":"a","new":["apple",3]}↵{"id":"a","ok":"apple","seq":1}↵ | 0 serial: 1 entries/
    another reply        | {"class":"Item","id":"a","new":["apple",3]}↵{"id":"a","ok":"pear","seq":1}↵ | 13 entry 1 expected: {"id":"a","ok":"apple","seq":1}/entry 1 found: {"id":"a","ok":"pear","seq":1}/stateflow: not serial: entry 1/
    its first line alone | {"class":"Item","id":"a","new":["apple",3]}↵ | 14 stateflow: bad run: line 2/
    no request           | {"class":"Pear","id":"a","new":["apple",3]}↵{"id":"a","ok":"apple","seq":1}↵ | 14 stateflow: bad run: line 1/
"#;

#[test]
fn audit_judges_a_run_by_the_program(rt: HostRuntime) -> Result<(), Fail> {
    hold_table(rt.alloc(), RUNS, 5, told)
}

const LINES: &str =
    "{\"class\":\"Item\",\"id\":\"a\",\"new\":[\"apple\",3]}\n{\"id\":\"a\",\"ok\":\"apple\",\"seq\":1}\n";

/// The name of a file with these lines, where the name `run` is asked for, and what fails.
const FAULTS: [Case<'static, (&str, Faults<'static>)>; 6] = [
    ("nothing", ("run", NO_FAULTS), "0 serial: 1 entries/"),
    ("no run", ("other", NO_FAULTS), "3 stateflow: read fault/"),
    (
        "the first read of the program",
        (
            "run",
            Faults {
                file: &[1],
                ..NO_FAULTS
            },
        ),
        "3 stateflow: read fault/",
    ),
    (
        "the first read of the run",
        (
            "run",
            Faults {
                file: &[3],
                ..NO_FAULTS
            },
        ),
        "3 stateflow: read fault/",
    ),
    (
        "the output",
        (
            "run",
            Faults {
                out: &[1],
                ..NO_FAULTS
            },
        ),
        "4 stateflow: write fault/",
    ),
    (
        "the error stream",
        (
            "other",
            Faults {
                err: &[1],
                ..NO_FAULTS
            },
        ),
        "4 stateflow: write fault/",
    ),
];

#[test]
fn audit_tells_what_fails(rt: HostRuntime) -> Result<(), Fail> {
    hold_cases(rt.alloc(), &FAULTS, |alloc, (name, faults)| {
        audited(alloc, name, LINES, *faults)
    })
}
