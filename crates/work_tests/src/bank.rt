//! The session of `examples/bank` on the generated program.

use memory_calls::{Answer, Call, NO_FAULTS, Wanted, call, hold_call};
use std::alloc::{AllocError, Global};
use std::test::Fail;
use test_support::hold_text;
use work_gen::generate;

/// Money moves; too much of it, or to nobody, doesn't.
const REQUESTS: &str = r#"{"id":"1","class":"Account","new":["ann",100]}
{"id":"2","class":"Account","new":["bob",20]}
{"id":"3","class":"Account","key":"ann","method":"give","args":[30,"bob"]}
{"id":"4","class":"Account","key":"bob","method":"give","args":[80,"ann"]}
{"id":"5","class":"Account","key":"ann","method":"give","args":[10,"eve"]}
{"id":"6","class":"Account","key":"ann","method":"give","args":[70,"bob"]}
{"id":"7","class":"Account","key":"ann","method":"give","args":[1,"bob"]}
"#;

const REPLIES: &str = r#"{"id":"1","ok":"ann","seq":1}
{"id":"2","ok":"bob","seq":2}
{"id":"3","ok":true,"seq":3}
{"id":"4","ok":false,"seq":4}
{"error":"NoEntity","id":"5","message":"","seq":5}
{"id":"6","ok":true,"seq":6}
{"id":"7","ok":false,"seq":7}
"#;

/// What stands at both ends of an output.
fn ends_told(alloc: Global, answer: &Answer) -> Result<String, AllocError> {
    let text = str::from_utf8(answer.out.bytes()).unwrap_or("no text");
    let first = text.lines().next().unwrap_or("nothing");
    let last = text.lines().last().unwrap_or("nothing");
    format!(in alloc; "{} {first} {last}", answer.status)
}

#[test]
fn money_moves_or_stays(rt: HostRuntime) -> Result<(), Fail> {
    let work = generate(rt.alloc(), 0, 1)?;
    let made = Call {
        words: &["run", "bank.py", "--batch", "1"],
        file: "bank.py",
        text: work.program.as_slice(),
        input: REQUESTS.as_bytes(),
        faults: NO_FAULTS,
    };
    let wanted = Wanted {
        status: 0,
        out: REPLIES.as_bytes(),
        err: b"",
    };
    hold_call(rt.alloc(), "the bank", made, wanted)
}

/// The status of `local` on generated work, and the first and the last line that it prints.
fn served(alloc: Global, program: &[u8], input: &[u8]) -> Result<String, AllocError> {
    let words = ["local", "bank.py"];
    let answer = call(alloc, &words, "bank.py", program, input, NO_FAULTS)?;
    let told = ends_told(alloc, &answer);
    drop(answer);
    told
}

#[test]
fn generated_requests_are_served(rt: HostRuntime) -> Result<(), Fail> {
    let work = generate(rt.alloc(), 7, 20)?;
    let told = served(rt.alloc(), work.program.as_slice(), work.input.as_slice());
    drop(work);
    let wanted = r#"0 {"id":"g1","ok":"a1","seq":1} {"id":"g20","ok":"a20","seq":20}"#;
    hold_text(told, wanted)
}
