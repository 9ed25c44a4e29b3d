//! Request lines, written as JSON.

ghost use Rattle.std.specs.Prelude.{◌≡◌, IfOk, OnOk};
ghost use Rattle.std.specs.Str.{encode_utf8_all};
ghost use Rattle.serde_json.specs.Data.{string, member, no_members};
ghost use Rattle.serde_json.specs.Events.{SendsValue, SendsMembers};
ghost use Rattle.program_meaning.specs.Sources.{source_of};
ghost use Rattle.request_json.specs.RequestTexts as spec;

use crate::sending::{Ints, send_text, send_values};
use crate::write::line_of;
use py_tree::{Checked, name_text};
use serde::{Described, Serialize, Serializer};
use sf_value::{Act, Bytes, Request, Text, Value};
use std::alloc::{AllocError, Global};

/// What is asked under an id, with the program that has the names of it.
#[derive(Drop)]
struct RequestMembers<'a> {
    program: &'a Checked,
    id: &'a Text,
    act: &'a Act,
}

impl<'a> Described for RequestMembers<'a> {
    ghost writes = { λ asked. SendsValue (spec.asked_data (source_of asked.program.now) asked.id.now asked.act.now) };
}

impl<'a> Serialize for RequestMembers<'a> {
    fn serialize<S: Serializer>(&self, out: &mut S) -> Result<(), S::Error> {
        match self.act {
            Act::Call {
                class,
                key,
                method,
                args,
            } => {
                let class_name = class_called(self.program, *class);
                let method_name = method_called(self.program, *class, *method);
                send_call(self.id, class_name, key, method_name, args.as_slice(), out)
            }
            Act::New { class, args } => {
                let class_name = class_called(self.program, *class);
                send_creation(self.id, class_name, args.as_slice(), out)
            }
        }
    }
}

/// The text of the name of a class.
fn class_called(program: &Checked, class: u32) -> &str
    ensures { result.now ≡ spec.class_called (source_of program.now) class }
{
    match program.program().classes.get(class as usize) {
        Some(class) => name_text(program.names(), class.name),
        None => "",
    }
}

/// The text of the name of a method.
fn method_called(program: &Checked, class: u32, method: u32) -> &str
    ensures { result.now ≡ spec.method_called (source_of program.now) class method }
{
    match program.method(class, method) {
        Some(method) => name_text(program.names(), method.name),
        None => "",
    }
}

/// The last member, which is a text, and the end of the object.
fn send_last<S: Serializer>(key: &str, text: &str, out: &mut S) -> Result<(), S::Error>
    ensures { OnOk result (SendsMembers (member key.now (string text.now) no_members) (S.written out.old) (S.written out.new)) }
{
    send_text(key, text, out)?;
    out.end_map()
}

fn send_call<S: Serializer>(
    id: &Text,
    class: &str,
    key: &Text,
    method: &str,
    args: &[Value],
    out: &mut S,
) -> Result<(), S::Error>
    ensures { OnOk result (SendsValue (spec.call_data (encode_utf8_all id.now) class.now (encode_utf8_all key.now) method.now (spec.passed_items args.now))
        (S.written out.old) (S.written out.new)) }
{
    out.begin_map(Some(5))?;
    out.key("args")?;
    send_values(args, Ints::Passed, out)?;
    send_text("class", class, out)?;
    send_text("id", id.as_str(), out)?;
    send_text("key", key.as_str(), out)?;
    send_last("method", method, out)
}

fn send_creation<S: Serializer>(
    id: &Text,
    class: &str,
    args: &[Value],
    out: &mut S,
) -> Result<(), S::Error>
    ensures { OnOk result (SendsValue (spec.creation_data (encode_utf8_all id.now) class.now (spec.passed_items args.now))
        (S.written out.old) (S.written out.new)) }
{
    out.begin_map(Some(3))?;
    send_text("class", class, out)?;
    send_text("id", id.as_str(), out)?;
    out.key("new")?;
    send_values(args, Ints::Passed, out)?;
    out.end_map()
}

/// The line of what is asked under an id: a request is lent by its two parts.
pub fn write_asked(
    alloc: Global,
    program: &Checked,
    id: &Text,
    act: &Act,
) -> Result<Bytes, AllocError>
    ensures { IfOk result (λ line. line ≡ spec.request_line (source_of program.now) (record { id = id.now; act = act.now })) }
{
    line_of(alloc, &RequestMembers { program, id, act })
}

/// The line of a request. A request that fits the program is read back from it.
pub fn write_request(
    alloc: Global,
    program: &Checked,
    request: &Request,
) -> Result<Bytes, AllocError>
    ensures { IfOk result (λ line. line ≡ spec.request_line (source_of program.now) request.now) }
{
    write_asked(alloc, program, &request.id, &request.act)
}
