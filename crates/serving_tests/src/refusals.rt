//! The words in which a line is refused, one cause and two together, and bytes that are no JSON.

use crate::echo::{answers, between};
use std::alloc::Global;
use std::test::Fail;
use test_support::{Case, hold_cases, hold_table};

/// The words in which the only line is refused, or the entity that it makes with this id.
fn answer_of<'a>(answers: &'a str, made: &str) -> &'a str {
    match between(answers, "{\"bad\":\"", "\",\"line\":1}\n") {
        Some(words) => words,
        None => between(answers, made, "\",\"seq\":1}\n").unwrap_or("another answer"),
    }
}

/// What is answered to a line, which may make an entity with the id `a`.
fn told_of_bytes(alloc: Global, line: &[u8]) -> Result<String, Fail> {
    let answers = answers(alloc, line)?;
    Ok(String::from_str(
        alloc,
        answer_of(answers.as_str(), "{\"id\":\"a\",\"ok\":\""),
    )?)
}

fn told(alloc: Global, line: &str) -> Result<String, Fail> {
    told_of_bytes(alloc, line.as_bytes())
}

const REFUSED: &str = r#"
    an open brace             | {                                                                             | not json
    two values                | {"id":"a","class":"Thing","new":["x"]}{}                                      | not json
    a number without a value  | {"id":"a","class":"Thing","new":[1e999]}                                      | not json
    half of a pair            | {"id":"a","class":"Thing","new":["\ud800"]}                                   | not json
    a list                    | []                                                                            | not a request
    a text                    | "a"                                                                           | not a request
    no key                    | {}                                                                            | not a request
    one key more              | {"id":"a","class":"Thing","new":["x"],"more":0}                               | not a request
    one key less              | {"id":"a","class":"Thing"}                                                    | not a request
    keys of both              | {"id":"a","class":"Thing","key":"x","method":"two","new":[]}                  | not a request
    an empty id               | {"id":"","class":"Thing","new":["x"]}                                         | not a request
    a number as id            | {"id":7,"class":"Thing","new":["x"]}                                          | not a request
    a number as class         | {"id":"a","class":7,"new":["x"]}                                              | not a request
    a number as key           | {"id":"a","class":"Thing","key":7,"method":"truth","args":[true]}             | not a request
    a number as method        | {"id":"a","class":"Thing","key":"x","method":7,"args":[true]}                 | not a request
    an object as arguments    | {"id":"a","class":"Thing","key":"x","method":"truth","args":{}}               | not a request
    an object as new          | {"id":"a","class":"Thing","new":{}}                                           | not a request
    arguments before class    | {"id":"a","class":"Other","key":"x","method":"truth","args":null}             | not a request
    id before class           | {"id":"","class":"Other","new":[]}                                            | not a request
    another class             | {"id":"a","class":"Other","new":["x"]}                                        | unknown class
    a reserved name as class  | {"id":"a","class":"len","new":["x"]}                                          | unknown class
    class before method       | {"id":"a","class":"Other","key":"x","method":"other","args":[]}               | unknown class
    class before count        | {"id":"a","class":"Other","new":[]}                                           | unknown class
    another method            | {"id":"a","class":"Thing","key":"x","method":"swap","args":[]}                | unknown method
    making is no method       | {"id":"a","class":"Thing","key":"x","method":"__init__","args":["x"]}         | unknown method
    the key is no method      | {"id":"a","class":"Thing","key":"x","method":"__key__","args":[]}             | unknown method
    method before count       | {"id":"a","class":"Thing","key":"x","method":"swap","args":[1]}               | unknown method
    no argument               | {"id":"a","class":"Thing","new":[]}                                           | argument count
    count before type         | {"id":"a","class":"Thing","new":[1,2]}                                        | argument count
    another type              | {"id":"a","class":"Thing","new":[1]}                                          | argument type
    blanks and an escape      | {"new" : ["\u0078"],  "class":"Thing","id":"a"}                              | x
    of equal keys the last    | {"id":"b","id":"a","class":"Other","class":"Thing","new":["y"],"new":["x"]}   | x
"#;

#[test]
fn the_first_refusal_in_order_is_told(rt: HostRuntime) -> Result<(), Fail> {
    hold_table(rt.alloc(), REFUSED, 32, told)
}

/// What is answered to bytes that no row can hold.
#[test]
fn bytes_that_are_no_json_are_refused(rt: HostRuntime) -> Result<(), Fail> {
    let cases: [Case<'_, &[u8]>; 5] = [
        (
            "a mark of byte order",
            b"\xef\xbb\xbf{\"id\":\"a\",\"class\":\"Thing\",\"new\":[\"x\"]}",
            "not json",
        ),
        (
            "a byte that is no text",
            b"{\"id\":\"\xff\",\"class\":\"Thing\",\"new\":[\"x\"]}",
            "not json",
        ),
        (
            "a byte of 1",
            b"{\"id\":\"a\x01\",\"class\":\"Thing\",\"new\":[\"x\"]}",
            "not json",
        ),
        ("blanks", b"   ", "not json"),
        ("a return", b"\r", "not json"),
    ];
    hold_cases(rt.alloc(), &cases, |alloc, line| {
        told_of_bytes(alloc, line)
    })
}

/// What is answered to so many lists, each in the one before.
fn told_of_nested(alloc: Global, depth: &usize) -> Result<String, Fail> {
    let mut line = String::new(alloc);
    for bracket in ["[", "]"] {
        line.push_str(bracket.repeat(alloc, *depth)?.as_str())?;
    }
    told(alloc, line.as_str())
}

#[test]
fn json_nests_127_deep(rt: HostRuntime) -> Result<(), Fail> {
    let cases = [("127", 127, "not a request"), ("128", 128, "not json")];
    hold_cases(rt.alloc(), &cases, told_of_nested)
}

/// What is answered to a creation whose id has 63 bytes with this end behind them.
fn told_of_id(alloc: Global, end: &&str) -> Result<String, Fail> {
    let most = "0123456789abcdef0123456789abcdef0123456789abcdef0123456789abcde";
    let line = format!(in alloc; "{{\"id\":\"{most}{end}\",\"class\":\"Thing\",\"new\":[\"x\"]}}")?;
    let made = format!(in alloc; "{{\"id\":\"{most}{end}\",\"ok\":\"")?;
    let answers = answers(alloc, line.as_bytes())?;
    Ok(String::from_str(alloc, answer_of(answers.as_str(), made.as_str()))?)
}

#[test]
fn an_id_has_1_to_64_bytes(rt: HostRuntime) -> Result<(), Fail> {
    let cases = [
        ("64 bytes", "f", "x"),
        ("65 bytes", "ff", "not a request"),
        ("64 letters in 65 bytes", "é", "not a request"),
    ];
    hold_cases(rt.alloc(), &cases, told_of_id)
}
