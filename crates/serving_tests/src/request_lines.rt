//! Lines that are requests and lines that are none, by what is answered to them.

use crate::echo::{between, written};
use memory_calls::{NO_FAULTS, call};
use std::alloc::Global;
use std::test::Fail;
use test_support::{COUNTER, hold_cases, hold_table};

/// What a table calls an answer that refuses the one line of the input.
const REFUSALS: [&str; 7] = [
    "line too long",
    "not json",
    "not a request",
    "unknown class",
    "unknown method",
    "argument count",
    "argument type",
];

/// The refusal that an answer is, where it is one.
fn refusal_of(answer: &str) -> Option<&str> {
    let words = between(answer, "{\"bad\":\"", "\",\"line\":1}\n")?;
    if REFUSALS.contains(&words) {
        return Some(words);
    }
    None
}

/// What a table calls an answer: the creation `a` of the entity `x`, the call `b` of an entity that isn't there, or a refusal.
fn name_of(answer: &str) -> &str {
    match answer {
        "{\"id\":\"a\",\"ok\":\"x\",\"seq\":1}\n" => "made",
        "{\"error\":\"NoEntity\",\"id\":\"b\",\"message\":\"\",\"seq\":1}\n" => "no entity",
        _ => refusal_of(answer).unwrap_or("another"),
    }
}

/// What is answered to a line, where this text is run.
fn told_by(alloc: Global, text: &str, line: &[u8]) -> Result<String, Fail> {
    let words = ["run", "a.py", "--batch", "1"];
    let answer = call(alloc, &words, "a.py", text.as_bytes(), line, NO_FAULTS)?;
    let written = written(alloc, &answer);
    drop(answer);
    Ok(String::from_str(alloc, name_of(written?.as_str()))?)
}

/// The same where the counter is run.
fn told(alloc: Global, line: &str) -> Result<String, Fail> {
    told_by(alloc, COUNTER, line.as_bytes())
}

const REQUESTS: &str = r#"
    a creation       | {"id":"a","class":"Counter","new":["x",3]}                                          | made
    the greatest int | {"id":"b","class":"Counter","key":"x","method":"add","args":[9223372036854775807]}  | no entity
    the least int    | {"args":[-9223372036854775808],"class":"Counter","id":"b","key":"x","method":"add"} | no entity
    an int as a text | {"id":"a","class":"Counter","new":["x","3"]}                                        | made
    one above 64 bits with a sign | {"id":"a","class":"Counter","new":["x",9223372036854775808]}           | made
"#;

#[test]
fn lines_that_are_requests(rt: HostRuntime) -> Result<(), Fail> {
    hold_table(rt.alloc(), REQUESTS, 5, told)
}

#[test]
fn blanks_around_a_request_are_no_matter(rt: HostRuntime) -> Result<(), Fail> {
    let spaced = r#" {"new" : ["\u0078",-3], "class":"Counter","id":"a"} "#;
    hold_cases(
        rt.alloc(),
        &[("blanks", spaced, "made")],
        |alloc, line| told(alloc, line),
    )
}

const NO_REQUESTS: &str = r#"
    an open brace           | {                                                                   | not json
    a second object         | {"id":"a","class":"Counter","new":["x",3]}{}                        | not json
    a list                  | []                                                                  | not a request
    another member          | {"id":"a","class":"Counter","new":["x",3],"more":0}                 | not a request
    arguments by name       | {"id":"a","class":"Counter","new":{"x":3}}                          | not a request
    a number as the id      | {"id":7,"class":"Counter","new":["x",3]}                            | not a request
    an empty id             | {"id":"","class":"Counter","new":["x",3]}                           | not a request
    no method               | {"id":"b","class":"Counter","key":"x","args":[4]}                   | not a request
    a number as the key     | {"id":"b","class":"Counter","key":7,"method":"add","args":[4]}      | not a request
    another class           | {"id":"a","class":"Other","new":["x",3]}                            | unknown class
    another method          | {"id":"b","class":"Counter","key":"x","method":"sub","args":[4]}    | unknown method
    __key__                 | {"id":"b","class":"Counter","key":"x","method":"__key__","args":[]} | unknown method
    an argument too few     | {"id":"a","class":"Counter","new":["x"]}                            | argument count
    an argument too many    | {"id":"a","class":"Counter","new":["x",3,4]}                        | argument count
    arguments swapped       | {"id":"a","class":"Counter","new":[3,"x"]}                          | argument type
    a number with a point   | {"id":"a","class":"Counter","new":["x",3.0]}                        | argument type
    one above 64 bits       | {"id":"a","class":"Counter","new":["x",18446744073709551616]}       | argument type
    no class and no id      | {"id":"","class":"Other","new":["x",3]}                             | not a request
    no class and no method  | {"id":"b","class":"Other","key":"x","method":"sub","args":[4]}      | unknown class
    no method, none to pass | {"id":"b","class":"Counter","key":"x","method":"sub","args":[]}     | unknown method
    too many of a wrong type | {"id":"a","class":"Counter","new":[3,"x",4]}                        | argument count
"#;

#[test]
fn lines_that_are_none(rt: HostRuntime) -> Result<(), Fail> {
    hold_table(rt.alloc(), NO_REQUESTS, 21, told)
}

#[test]
fn a_line_that_is_no_text_is_none(rt: HostRuntime) -> Result<(), Fail> {
    let no_text: &[u8] = b"{\"id\":\"\xff\",\"class\":\"Counter\",\"new\":[\"x\",3]}";
    hold_cases(
        rt.alloc(),
        &[("a byte of 255", no_text, "not json")],
        |alloc, line| told_by(alloc, COUNTER, line),
    )
}

/// What is answered to a creation whose id has 63 bytes with this end behind them.
fn told_of_id(alloc: Global, end: &&str) -> Result<String, Fail> {
    let id = "0123456789abcdef0123456789abcdef0123456789abcdef0123456789abcde";
    let line = format!(in alloc;
        "{{\"id\":\"{id}{end}\",\"class\":\"Counter\",\"new\":[\"x\",3]}}"
    )?;
    told(alloc, line.as_str())
}

#[test]
fn an_id_has_at_most_64_bytes(rt: HostRuntime) -> Result<(), Fail> {
    let cases = [
        ("64 bytes", "f", "another"),
        ("65 bytes", "é", "not a request"),
    ];
    hold_cases(rt.alloc(), &cases, told_of_id)
}

/// Methods and creations that take values of each type.
const TYPED: &str = "from typing import List, Optional
@entity
class Thing:
    def __init__(self, n: int, k: str, m: int):
        self.k: str = k
    def __key__(self): return self.k
    def ints(self, n: int, m: int) -> int: return n
    def text(self, s: str) -> int: return 1
    def maybe(self, n: Optional[int]) -> int: return 1
    def listed(self, xs: List[int]) -> int: return 1
    def other(self, a: 'Thing') -> int: return 1
    def last(self, n: int, b: bool) -> int: return n
    def test(self, n: int) -> bool: return True
    def word(self) -> str: return self.k
    def nothing(self) -> None: pass
@entity
class Twice:
    def __init__(self, k: str, s: str):
        self.k: str = k
    def __key__(self): return self.k
@entity
class Flag:
    def __init__(self, k: str, b: bool):
        self.k: str = k
    def __key__(self): return self.k
";

const TYPED_LINES: &str = r#"
    ints                      | {"id":"b","class":"Thing","key":"x","method":"ints","args":[1,2]}    | no entity
    a creation of a key, ints | {"id":"a","class":"Thing","new":[1,"x",2]}                           | made
    a text                    | {"id":"b","class":"Thing","key":"x","method":"text","args":["s"]}    | no entity
    a number for a text       | {"id":"b","class":"Thing","key":"x","method":"text","args":[1]}      | argument type
    an Optional               | {"id":"b","class":"Thing","key":"x","method":"maybe","args":[1]}     | no entity
    an Optional of None       | {"id":"b","class":"Thing","key":"x","method":"maybe","args":[null]}  | no entity
    a bool for an Optional    | {"id":"b","class":"Thing","key":"x","method":"maybe","args":[true]}  | argument type
    a list                    | {"id":"b","class":"Thing","key":"x","method":"listed","args":[[1]]}  | no entity
    an empty list             | {"id":"b","class":"Thing","key":"x","method":"listed","args":[[]]}   | no entity
    a list of None            | {"id":"b","class":"Thing","key":"x","method":"listed","args":[[null]]} | argument type
    an entity                 | {"id":"b","class":"Thing","key":"x","method":"other","args":["y"]}   | no entity
    a number for an entity    | {"id":"b","class":"Thing","key":"x","method":"other","args":[1]}     | argument type
    a bool at the end         | {"id":"b","class":"Thing","key":"x","method":"last","args":[1,true]} | no entity
    a number for a bool       | {"id":"b","class":"Thing","key":"x","method":"last","args":[1,1]}    | argument type
    a bool as the result      | {"id":"b","class":"Thing","key":"x","method":"test","args":[1]}      | no entity
    a text as the result      | {"id":"b","class":"Thing","key":"x","method":"word","args":[]}       | no entity
    None as the result        | {"id":"b","class":"Thing","key":"x","method":"nothing","args":[]}    | no entity
    a creation of two texts   | {"id":"a","class":"Twice","new":["x","y"]}                           | made
    a creation of a bool      | {"id":"a","class":"Flag","new":["x",true]}                           | made
"#;

#[test]
fn declared_types_decide_what_can_be_asked_for(rt: HostRuntime) -> Result<(), Fail> {
    hold_table(rt.alloc(), TYPED_LINES, 19, |alloc, line| {
        told_by(alloc, TYPED, line.as_bytes())
    })
}
