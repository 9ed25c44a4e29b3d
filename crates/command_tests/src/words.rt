//! What words ask for: words that are served, and words that are told the usage.

use memory_calls::{Answer, NO_FAULTS, call};
use std::alloc::{AllocError, Global};
use std::test::Fail;
use test_support::{COUNTER, hold_table};

const USAGE: &[u8] =
    b"usage: stateflow check FILE | compile FILE | local FILE | run FILE [options] | gen [options] | audit FILE RUN | export FILE --store DIR\n";

const GRAPH: &[u8] = b"class Counter: key k; 2 fields; 1 methods
method Counter.add: 1 blocks
  block 0: 1 vars, leave
";

/// Calls with the words of a text, where the counter is a file and a line comes. There is a blank between
/// two words, and `''` stands for an empty one.
fn called(alloc: Global, text: &str) -> Result<Answer, AllocError> {
    let mut words: Vec<&str> = Vec::new(alloc);
    if !text.is_empty() {
        for word in text.split(' ') {
            words.push(if word == "''" { "" } else { word })?;
        }
    }
    let program = COUNTER.as_bytes();
    call(alloc, words.as_slice(), "a.py", program, b"{}\n", NO_FAULTS)
}

/// What a call did.
fn done(answer: &Answer) -> &'static str {
    let printed = answer.out.bytes();
    let told = answer.err.bytes();
    if answer.status == 2 && printed.is_empty() && told == USAGE {
        return "usage";
    }
    if answer.status != 0 || !told.is_empty() {
        return "another status";
    }
    if printed == b"ok: 1 classes, 1 methods\n".as_slice() {
        return "checked";
    }
    if printed == GRAPH {
        return "compiled";
    }
    if printed == b"{\"bad\":\"not a request\",\"line\":1}\n".as_slice() {
        return "served";
    }
    if printed.starts_with(b"requests ") && printed.ends_with(b"\n") {
        return "summed up";
    }
    "another text"
}

/// What a call with the words of a row does.
fn told(alloc: Global, text: &str) -> Result<String, Fail> {
    let answer = called(alloc, text.trim())?;
    let told = String::from_str(alloc, done(&answer));
    drop(answer);
    Ok(told?)
}

const SERVED: &str = "
    check                    | check a.py                       | checked
    compile                  | compile a.py                     | compiled
    local                    | local a.py                       | served
    run                      | run a.py --batch 1               | served
    run, joined              | run a.py --batch=1               | served
    run, the file last       | run --batch 1 a.py               | served
    run, joined and first    | run --batch=1 a.py               | served
    run, a number of zeros   | run a.py --batch=0001            | served
    run, all that is usual   | run --history=16777216 --every 64 a.py --schedule=0 --partitions 4 --batch=64 | served
    run, the usual batch     | run a.py                         | served
    run, a batch of two      | run a.py --batch 2               | served
    run, partitions          | run a.py --batch 1 --partitions 64 | served
    run, a schedule          | run a.py --schedule=18446744073709551615 | served
    run, checkpoints         | run a.py --every 2               | served
    run, a history           | run a.py --history 1             | served
    run, a trace             | run --trace a.py                 | served
";

#[test]
fn words_that_are_served(rt: HostRuntime) -> Result<(), Fail> {
    hold_table(rt.alloc(), SERVED, 16, told)
}

const OTHER_WORDS: &str = "
    no word                  |                                  | usage
    no command               | a.py                             | usage
    another case             | Local a.py                       | usage
    check without a file     | check                            | usage
    an empty file            | check ''                         | usage
    a hyphen for the file    | check -                          | usage
    two files to check       | check a.py a.py                  | usage
    an option of check       | check a.py --batch 1             | usage
    compile without a file   | compile                          | usage
    an option as the file    | compile -a.py                    | usage
    two files to compile     | compile a.py a.py                | usage
    an option of compile     | compile a.py --trace             | usage
    local without a file     | local                            | usage
    an empty file to serve   | local ''                         | usage
    a hyphen before the file | local -a.py                      | usage
    two files to serve       | local a.py a.py                  | usage
    an option of local       | local a.py --batch 1             | usage
    run without a file       | run                              | usage
    two files to run         | run a.py b.py                    | usage
    a batch of none          | run a.py --batch 0               | usage
    a batch twice            | run a.py --batch 1 --batch 1     | usage
    no folder                | run a.py --store=                | usage
    an unknown option        | run a.py --batch 1 --fast        | usage
";

#[test]
fn words_of_no_command_are_told_the_usage(rt: HostRuntime) -> Result<(), Fail> {
    hold_table(rt.alloc(), OTHER_WORDS, 23, told)
}

const WORKS: &str = "
    apart                    | gen --number 7 --size 3          | summed up
    joined                   | gen --number=7 --size=3          | summed up
    the other order          | gen --size 3 --number=7          | summed up
    a batch                  | gen --number 7 --size 3 --batch 2 | summed up
    a batch, joined          | gen --batch=2 --number 7 --size 3 | summed up
    partitions               | gen --number 7 --partitions 2 --size 3 | summed up
    partitions, joined       | gen --number 7 --size 3 --partitions=2 | summed up
    all that is usual        | gen --partitions=4 --size 3 --batch=64 --number 7 | summed up
    zeros in front           | gen --number 007 --size 0003     | summed up
    number 0                 | gen --number 0 --size 1          | summed up
    number 2^64-1            | gen --number=18446744073709551615 --size 1 | summed up
    number 2^64              | gen --number 18446744073709551616 --size 1 | usage
    size 0                   | gen --number 7 --size 0          | usage
    size 100001              | gen --number 7 --size=100001     | usage
    batch 0                  | gen --number 7 --size 3 --batch=0 | usage
    batch 1                  | gen --number 7 --size 3 --batch 1 | summed up
    batch 256                | gen --number 7 --size 3 --batch=256 | summed up
    batch 257                | gen --number 7 --size 3 --batch 257 | usage
    partitions 0             | gen --number 7 --size 3 --partitions 0 | usage
    partitions 1             | gen --number 7 --size 3 --partitions=1 | summed up
    partitions 64            | gen --number 7 --size 3 --partitions 64 | summed up
    partitions 65            | gen --number 7 --size 3 --partitions=65 | usage
";

#[test]
fn words_of_generated_work(rt: HostRuntime) -> Result<(), Fail> {
    hold_table(rt.alloc(), WORKS, 22, told)
}

const OTHER_WORKS: &str = "
    nothing given            | gen                              | usage
    no size                  | gen --number 7                   | usage
    no number                | gen --size 3 --batch 2           | usage
    no value of the size     | gen --number 7 --size            | usage
    an empty number          | gen --number= --size 3           | usage
    an empty size            | gen --number 7 --size ''         | usage
    a number twice           | gen --number 7 --size 3 --number 7 | usage
    a size in both forms     | gen --size=3 --number 7 --size 3 | usage
    a batch twice            | gen --number 7 --batch 2 --size 3 --batch=3 | usage
    partitions twice         | gen --partitions 2 --number 7 --size 3 --partitions 2 | usage
    a negative number        | gen --number -7 --size 3         | usage
    a negative one, joined   | gen --number=-7 --size 3         | usage
    a negative size          | gen --number 7 --size -3         | usage
    a negative batch         | gen --number 7 --size 3 --batch=-2 | usage
    an option as partitions  | gen --partitions --number 7 --size 3 | usage
    a hyphen as the number   | gen --number - --size 3          | usage
    two hyphens as the size  | gen --number 7 --size --         | usage
    a file                   | gen a.py --number 7 --size 3     | usage
    a schedule               | gen --number 7 --size 3 --schedule 1 | usage
    a history                | gen --number 7 --size 3 --history 9 | usage
    a trace                  | gen --number 7 --size 3 --trace  | usage
    a store                  | gen --number 7 --size 3 --store s | usage
    checkpoints              | gen --number 7 --size 3 --every 1 | usage
";

#[test]
fn words_of_no_generated_work_are_told_the_usage(rt: HostRuntime) -> Result<(), Fail> {
    hold_table(rt.alloc(), OTHER_WORKS, 23, told)
}
