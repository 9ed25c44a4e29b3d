//! Requests of every kind on the state: what each comes to, what it reads and writes, and the steps that it leaves.

use crate::served::{accepted, request_of, served};
use py_tree::Checked;
use sf_value::Ref;
use source_meaning::{Attempt, Local};
use std::alloc::{AllocError, Global};
use std::test::Fail;
use test_support::{NUM, hold_cases, hold_table};
use value_texts::outcome_told;

/// The line of a request that is told as a key, a method and its arguments, or as `new` and what the
/// class takes.
fn line_of(alloc: Global, told: &str) -> Result<String, AllocError> {
    let (key, rest) = told.split_once(' ').unwrap_or((told, "[]"));
    match rest.split_once(' ') {
        Some((method, args)) => format!(in alloc;
            "{{\"id\":\"r\",\"class\":\"Num\",\"key\":\"{key}\",\"method\":\"{method}\",\"args\":{args}}}"
        ),
        None => format!(in alloc; "{{\"id\":\"r\",\"class\":\"Num\",\"new\":{rest}}}"),
    }
}

/// Runs the request that is told.
fn run(alloc: Global, program: &Checked, state: &mut Local, told: &str) -> Result<(), Fail> {
    let line = line_of(alloc, told)?;
    drop(served(alloc, program, state, line.as_str())?);
    Ok(())
}

/// The state after `p` is made with 1 and `q` with 2.
fn two_numbers(alloc: Global, program: &Checked) -> Result<Local, Fail> {
    let mut state = Local::new(alloc);
    run(alloc, program, &mut state, "new [\"p\",1]")?;
    run(alloc, program, &mut state, "new [\"q\",2]")?;
    Ok(state)
}

/// The keys of entities.
fn keys_told<V>(alloc: Global, entries: &[(Ref, V)]) -> Result<String, AllocError> {
    let mut told = String::new(alloc);
    for (at, _) in entries {
        if !told.is_empty() {
            told.push(',')?;
        }
        told.push_str(at.key.as_str())?;
    }
    if told.is_empty() {
        told.push_str("none")?;
    }
    Ok(told)
}

/// What a request came to, what it read and wrote, and the steps that it left.
fn attempt_told(alloc: Global, made: Attempt) -> Result<String, AllocError> {
    let Attempt {
        outcome,
        changed,
        reads,
        steps,
    } = made;
    let outcome = outcome_told(alloc, &outcome)?;
    let reads = reads.into_list()?;
    let reads = keys_told(alloc, reads.as_slice())?;
    let changed = changed.into_list()?;
    let writes = keys_told(alloc, changed.as_slice())?;
    format!(in alloc; "{outcome} reads {reads} writes {writes} leaves {steps}")
}

/// What the request that is told comes to on a state.
fn attempted(alloc: Global, program: &Checked, state: &Local, told: &str) -> Result<Attempt, Fail> {
    let line = line_of(alloc, told)?;
    let request = request_of(alloc, program, line.as_str())?;
    let made = state.attempt(alloc, program, &request.act);
    drop(request);
    Ok(made?)
}

/// The same after `p` and `q` are made, as a text.
fn told_with(alloc: Global, program: &Checked, told: &str) -> Result<String, Fail> {
    let state = two_numbers(alloc, program)?;
    let made = attempted(alloc, program, &state, told);
    drop(state);
    let made = made?;
    Ok(attempt_told(alloc, made)?)
}

/// The same of the program of numbers.
fn told(alloc: Global, request: &str) -> Result<String, Fail> {
    let program = accepted(alloc, NUM)?;
    let told = told_with(alloc, &program, request);
    drop(program);
    told
}

const ARITHMETIC: &str = r#"
    a quotient below 0        | p div [-7,2]                                          | -4 reads p writes none leaves 99998
    a rest of what is below 0 | p mod [-7,2]                                          | 1 reads p writes none leaves 99998
    a rest by what is below 0 | p mod [7,-2]                                          | -1 reads p writes none leaves 99998
    by 0                      | p div [1,0]                                           | ZeroDivisionError reads p writes none leaves 99998
    the greatest literal      | p big []                                              | 170141183460469231731687303715884105727 reads p writes none leaves 99998
    one above it              | p over []                                             | OverflowError reads p writes none leaves 99996
    the least by -1           | p div ["-170141183460469231731687303715884105728",-1] | OverflowError reads p writes none leaves 99998
    the most of 64 bits       | p div [9223372036854775807,1]                         | 9223372036854775807 reads p writes none leaves 99998
"#;

#[test]
fn arithmetic_is_floored_and_stays_in_range(rt: HostRuntime) -> Result<(), Fail> {
    hold_table(rt.alloc(), ARITHMETIC, 8, told)
}

const LIMITS: &str = "
    no end   | p spin []   | StepLimit reads p writes none leaves 0
    one call | p down [1]  | 1 reads p writes none leaves 99997
    64 calls | p down [64] | 64 reads p writes none leaves 99808
    65 calls | p down [65] | RecursionError reads p writes none leaves 99807
";

#[test]
fn steps_and_depth_have_limits(rt: HostRuntime) -> Result<(), Fail> {
    hold_table(rt.alloc(), LIMITS, 4, told)
}

const INDEXES: &str = "
    the last         | p at [[1,2,3],-1] | 3 reads p writes none leaves 99998
    before the first | p at [[1,2,3],-4] | IndexError reads p writes none leaves 99998
    behind the last  | p at [[1,2,3],3]  | IndexError reads p writes none leaves 99998
    of no element    | p at [[],0]       | IndexError reads p writes none leaves 99998
";

#[test]
fn index_counts_from_either_end_within_the_list(rt: HostRuntime) -> Result<(), Fail> {
    hold_table(rt.alloc(), INDEXES, 4, told)
}

/// What a call comes to that is to double a text of so many letters.
fn doubled(alloc: Global, count: &usize) -> Result<String, Fail> {
    let letters = "a".repeat(alloc, *count)?;
    let request = format!(in alloc; "p twice [\"{letters}\"]")?;
    told(alloc, request.as_str())
}

#[test]
fn values_weigh_at_most_so_much(rt: HostRuntime) -> Result<(), Fail> {
    let cases = [
        (
            "32,767 letters",
            32_767,
            "a text of 65534 bytes reads p writes none leaves 99998",
        ),
        (
            "32,768 letters",
            32_768,
            "SizeLimit reads p writes none leaves 99998",
        ),
        (
            "65,536 letters",
            65_536,
            "SizeLimit reads none writes none leaves 100000",
        ),
    ];
    hold_cases(rt.alloc(), &cases, doubled)
}

const EFFECTS: &str = r#"
    an assert fails with its message | p check_it [0] | AssertionError: not positive reads p writes none leaves 99998
    a failure keeps its reads        | p both ["q"]   | ZeroDivisionError reads p,q writes none leaves 99994
    a value keeps what it assigned   | p put [7]      | None reads p writes p leaves 99998
    a missing entity is read         | r big []       | NoEntity reads r writes none leaves 99999
    one that is there is not made    | new ["q",5]    | AlreadyExists reads q writes none leaves 99999
"#;

#[test]
fn failed_requests_write_nothing_and_keep_their_reads(rt: HostRuntime) -> Result<(), Fail> {
    hold_table(rt.alloc(), EFFECTS, 5, told)
}
