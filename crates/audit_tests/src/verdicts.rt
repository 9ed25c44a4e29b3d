//! Runs that are serial, runs of which an entry differs, and runs with a bad line.

use crate::audited::audited;
use std::alloc::Global;
use std::test::Fail;
use test_support::hold_table;

/// What an audit tells of the lines of a row.
fn told(alloc: Global, text: &str) -> Result<String, Fail> {
    audited(alloc, 1_099_511_627_776, text.as_bytes())
}

const SERIAL: &str = r#"
    an empty file        |   | serial 0
    a creation           | {"class":"Item","id":"a","new":["apple",3]}↵{"id":"a","ok":"apple","seq":1}↵ | serial 1
    no last line end     | {"class":"Item","id":"a","new":["apple",3]}↵{"id":"a","ok":"apple","seq":1} | serial 1
    another form of it   | {"new": ["apple", 3], "id": "a", "class": "Item"}↵{"id":"a","ok":"apple","seq":1}↵ | serial 1
    one that fails       | {"args":[],"class":"Item","id":"a","key":"x","method":"price"}↵{"error":"NoEntity","id":"a","message":"","seq":1}↵ | serial 1
    a call behind it     | {"class":"Item","id":"a","new":["apple",3]}↵{"id":"a","ok":"apple","seq":1}↵{"args":[],"class":"Item","id":"b","key":"apple","method":"price"}↵{"id":"b","ok":3,"seq":2}↵ | serial 2
    a change behind it   | {"class":"Item","id":"a","new":["apple",3]}↵{"id":"a","ok":"apple","seq":1}↵{"args":[-1],"class":"Item","id":"b","key":"apple","method":"update_stock"}↵{"id":"b","ok":false,"seq":2}↵ | serial 2
"#;

#[test]
fn run_whose_replies_are_those_of_its_requests_in_turn_is_serial(
    rt: HostRuntime,
) -> Result<(), Fail> {
    hold_table(rt.alloc(), SERIAL, 7, told)
}

const DIFFERING: &str = r#"
    another value        | {"class":"Item","id":"a","new":["apple",3]}↵{"id":"a","ok":"pear","seq":1}↵ | entry 1: {"id":"a","ok":"apple","seq":1}, not {"id":"a","ok":"pear","seq":1}
    another place        | {"class":"Item","id":"a","new":["apple",3]}↵{"id":"a","ok":"apple","seq":2}↵ | entry 1: {"id":"a","ok":"apple","seq":1}, not {"id":"a","ok":"apple","seq":2}
    another id           | {"class":"Item","id":"a","new":["apple",3]}↵{"id":"b","ok":"apple","seq":1}↵ | entry 1: {"id":"a","ok":"apple","seq":1}, not {"id":"b","ok":"apple","seq":1}
    a blank more         | {"class":"Item","id":"a","new":["apple",3]}↵{"id":"a","ok":"apple", "seq":1}↵ | entry 1: {"id":"a","ok":"apple","seq":1}, not {"id":"a","ok":"apple", "seq":1}
    no reply             | {"class":"Item","id":"a","new":["apple",3]}↵{}↵ | entry 1: {"id":"a","ok":"apple","seq":1}, not {}
    another error        | {"args":[],"class":"Item","id":"a","key":"x","method":"price"}↵{"error":"StepLimit","id":"a","message":"","seq":1}↵ | entry 1: {"error":"NoEntity","id":"a","message":"","seq":1}, not {"error":"StepLimit","id":"a","message":"","seq":1}
    the second entry     | {"class":"Item","id":"a","new":["apple",3]}↵{"id":"a","ok":"apple","seq":1}↵{"args":[],"class":"Item","id":"b","key":"apple","method":"price"}↵{"id":"b","ok":4,"seq":2}↵ | entry 2: {"id":"b","ok":3,"seq":2}, not {"id":"b","ok":4,"seq":2}
    a bad line behind it | {"class":"Item","id":"a","new":["apple",3]}↵{"id":"a","ok":"pear","seq":1}↵no request↵ | entry 1: {"id":"a","ok":"apple","seq":1}, not {"id":"a","ok":"pear","seq":1}
"#;

#[test]
fn first_entry_with_another_reply_differs(rt: HostRuntime) -> Result<(), Fail> {
    hold_table(rt.alloc(), DIFFERING, 8, told)
}

const BAD: &str = r#"
    a missing reply      | {"class":"Item","id":"a","new":["apple",3]}↵ | bad line 2
    and no line end      | {"class":"Item","id":"a","new":["apple",3]} | bad line 2
    an empty line        | ↵ | bad line 1
    no request           | no request↵{"id":"a","ok":"apple","seq":1}↵ | bad line 1
    an unknown class     | {"class":"Pear","id":"a","new":["apple",3]}↵{"id":"a","ok":"apple","seq":1}↵ | bad line 1
    no request behind it | {"class":"Item","id":"a","new":["apple",3]}↵{"id":"a","ok":"apple","seq":1}↵no request | bad line 3
    an id twice          | {"class":"Item","id":"a","new":["apple",3]}↵{"id":"a","ok":"apple","seq":1}↵{"class":"Item","id":"a","new":["pear",3]}↵{"id":"a","ok":"pear","seq":2}↵ | bad line 3
    a second missing one | {"class":"Item","id":"a","new":["apple",3]}↵{"id":"a","ok":"apple","seq":1}↵{"class":"Item","id":"b","new":["pear",3]}↵ | bad line 4
"#;

#[test]
fn line_that_is_no_request_or_is_missing_is_bad(rt: HostRuntime) -> Result<(), Fail> {
    hold_table(rt.alloc(), BAD, 8, told)
}
