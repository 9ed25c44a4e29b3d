//! The exact text of replies.

use crate::served::{accepted, served};
use py_tree::Checked;
use request_json::{write_bad, write_reply};
use sf_list::Sequence;
use sf_value::{Bytes, Outcome, Ref, Reply, Text, Value};
use source_meaning::Local;
use std::alloc::{AllocError, Global};
use std::test::Fail;
use test_support::{Setting, hold_table, hold_text, text_in};

/// A row has the result of a method f of the class A, and its body.
const RESULT: Setting = Setting {
    head: "@entity
class A:
    def __init__(self, k: str): self.k: str = k
    def __key__(self): return self.k
    def f(self) -> ",
    indent: "",
    tail: "",
};

const MAKE: &str = r#"{"id":"r0","class":"A","new":["apple"]}"#;

const CALL: &str = r#"{"id":"r1","class":"A","key":"apple","method":"f","args":[]}"#;

/// What a call of f comes to.
fn called(alloc: Global, program: &Checked) -> Result<Outcome, Fail> {
    let mut state = Local::new(alloc);
    drop(served(alloc, program, &mut state, MAKE)?);
    let outcome = served(alloc, program, &mut state, CALL);
    drop(state);
    outcome
}

/// The line of a reply to `r1` at the place 7.
fn reply_line(alloc: Global, program: &Checked, outcome: Outcome) -> Result<Bytes, AllocError> {
    let id = Text::of(alloc, "r1")?;
    let reply = Reply { seq: 7, outcome };
    let line = write_reply(alloc, program, &id, &reply);
    drop(reply);
    line
}

/// The line of the reply to a call of f.
fn replied(alloc: Global, text: &str) -> Result<Bytes, Fail> {
    let text = text_in(alloc, RESULT, text)?;
    let program = accepted(alloc, text.as_str())?;
    let line = match called(alloc, &program) {
        Ok(outcome) => Ok(reply_line(alloc, &program, outcome)?),
        Err(fail) => Err(fail),
    };
    drop(program);
    line
}

/// A line without its end.
fn line_told(alloc: Global, line: &Bytes) -> Result<String, AllocError> {
    let text = str::from_utf8(line.as_slice()).unwrap_or("no text");
    String::from_str(alloc, text.strip_suffix("\n").unwrap_or("no line"))
}

/// The line of the reply to a call of f.
fn told(alloc: Global, text: &str) -> Result<String, Fail> {
    let line = replied(alloc, text)?;
    let told = line_told(alloc, &line);
    drop(line);
    Ok(told?)
}

const VALUES: &str = r#"
    a small int              | int: return 3                        | {"id":"r1","ok":3,"seq":7}
    the least of 64 bits     | int: return -9223372036854775808     | {"id":"r1","ok":-9223372036854775808,"seq":7}
    one above 64 bits        | int: return 9223372036854775808      | {"id":"r1","ok":"9223372036854775808","seq":7}
    None                     | None: pass                           | {"id":"r1","ok":null,"seq":7}
    a bool                   | bool: return True                    | {"id":"r1","ok":true,"seq":7}
    a text                   | str: return 'a"é\n'                  | {"id":"r1","ok":"a\"é\n","seq":7}
    an entity                | 'A': return self                     | {"id":"r1","ok":"apple","seq":7}
    a list with an empty one | List[List['A']]: return [[self], []] | {"id":"r1","ok":[["apple"],[]],"seq":7}
"#;

#[test]
fn lines_of_values(rt: HostRuntime) -> Result<(), Fail> {
    hold_table(rt.alloc(), VALUES, 8, told)
}

const FAILURES: &str = r#"
    no such element      | int: return [1][1]             | {"error":"IndexError","id":"r1","message":"","seq":7}
    a quote in a message | None: raise Exception('a"b')   | {"error":"Exception","id":"r1","message":"a\"b","seq":7}
    no end               | None:↵        while True: pass | {"error":"StepLimit","id":"r1","message":"","seq":7}
"#;

#[test]
fn lines_of_failures(rt: HostRuntime) -> Result<(), Fail> {
    hold_table(rt.alloc(), FAILURES, 3, told)
}

/// A list of an entity and a list without elements, which no program makes.
fn mixed(alloc: Global) -> Result<Value, AllocError> {
    let apple = Ref {
        class: 0,
        key: Text::of(alloc, "apple")?,
    };
    let mut items = Sequence::new(alloc);
    items.push(alloc, Value::Entity(apple))?;
    items.push(alloc, Value::List(Sequence::new(alloc)))?;
    Ok(Value::List(items))
}

/// The line of the reply with that list, without its end.
fn mixed_line(alloc: Global, program: &Checked) -> Result<String, AllocError> {
    let outcome = Outcome::Value(mixed(alloc)?);
    let line = reply_line(alloc, program, outcome)?;
    let told = line_told(alloc, &line);
    drop(line);
    told
}

#[test]
fn line_of_a_list_whose_elements_differ(rt: HostRuntime) -> Result<(), Fail> {
    let program = accepted(rt.alloc(), "")?;
    let told = mixed_line(rt.alloc(), &program);
    drop(program);
    hold_text(told, r#"{"id":"r1","ok":["apple",[]],"seq":7}"#)
}

/// The line of a refusal, without its end.
fn refused_line(alloc: Global) -> Result<String, AllocError> {
    let line = write_bad(alloc, "argument type", 7)?;
    let told = line_told(alloc, &line);
    drop(line);
    told
}

#[test]
fn line_of_a_refusal(rt: HostRuntime) -> Result<(), Fail> {
    let wanted = r#"{"bad":"argument type","line":7}"#;
    hold_text(refused_line(rt.alloc()), wanted)
}
