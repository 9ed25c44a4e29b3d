//! Requests, read from lines.

ghost use Rattle.std.specs.Prelude.{◌≡◌, IfOk};
ghost use Rattle.std.specs.Option.{option_map};
ghost use Rattle.std.specs.Str.{chars};
ghost use Rattle.serde_json.specs.View.{view, items_view};
ghost use Rattle.program_meaning.specs.Sources.{source_of};
ghost use Rattle.request_json.specs.RequestLines as spec;
ghost use Rattle.request_json.specs.Answers.{Gives, Shows};

use crate::arguments::arguments_of;
use crate::fault::{LineError, LineFault};
use py_tree::Checked;
use serde_json::Value as Json;
use sf_value::{Act, Request, Text};
use source_meaning::{init_params, method_params};
use std::alloc::{AllocError, Global};
use std::str;

/// An id has at most this many bytes.
const LONGEST_ID: usize = 64;

/// A call has an id, a class, a key, a method and arguments.
const CALL_MEMBERS: usize = 5;

/// A creation has an id, a class and arguments.
const CREATION_MEMBERS: usize = 3;

/// The data of a line, where it is JSON in UTF-8.
fn parse(alloc: Global, line: &[u8]) -> Result<Option<Json>, AllocError>
    ensures { IfOk result (λ v. option_map view v ≡ spec.data_of line.now) }
{
    let Ok(text) = str::from_utf8(line) else {
        return Ok(None);
    };
    match Json::from_str(alloc, text) {
        Ok(value) => Ok(Some(value)),
        Err(error) if error.is_memory() => Err(AllocError),
        Err(_) => Ok(None),
    }
}

fn text_in<'a>(value: &'a Json, key: &str) -> Result<&'a str, LineFault>
    ensures { Shows (λ s. s.now) (spec.text_in key.now (view value.now)) result }
{
    match value.get(key).and_then(Json::as_str) {
        Some(text) => Ok(text),
        None => Err(LineFault::NotRequest),
    }
}

fn array_in<'a>(value: &'a Json, key: &str) -> Result<&'a Vec<Json>, LineFault>
    ensures { Shows (λ v. items_view v.now.items) (spec.array_in key.now (view value.now)) result }
{
    match value.get(key).and_then(Json::as_array) {
        Some(items) => Ok(items),
        None => Err(LineFault::NotRequest),
    }
}

fn has_size(value: &Json, count: usize) -> bool
    ensures { result ≡ spec.has_members (view value.now) count }
{
    match value.as_object() {
        Some(members) => members.len() == count,
        None => false,
    }
}

/// Whether a text is an id, which has 1 to 64 bytes.
fn is_id(text: &str) -> bool
    ensures { result ≡ spec.is_id (chars text.now) }
{
    !text.is_empty() && text.len() <= LONGEST_ID
}

fn id_in(alloc: Global, value: &Json) -> Result<Text, LineError>
    ensures { Gives (spec.id_in (view value.now)) result }
{
    let text = text_in(value, "id")?;
    if !is_id(text) {
        return Err(LineError::Fault(LineFault::NotRequest));
    }
    Ok(Text::of(alloc, text)?)
}

fn class_of(program: &Checked, name: &str) -> Result<u32, LineFault>
    ensures { result ≡ spec.class_of (source_of program.now) name.now }
{
    match program.class_of(name) {
        Some(class) => Ok(class),
        None => Err(LineFault::UnknownClass),
    }
}

fn method_of(program: &Checked, class: u32, name: &str) -> Result<u32, LineFault>
    ensures { result ≡ spec.method_of (source_of program.now) class name.now }
{
    match program.method_of(class, name) {
        Some(method) => Ok(method),
        None => Err(LineFault::UnknownMethod),
    }
}

fn call_of(alloc: Global, program: &Checked, value: &Json) -> Result<Request, LineError>
    ensures { Gives (spec.call_of (source_of program.now) (view value.now)) result }
{
    let id = id_in(alloc, value)?;
    let class_name = text_in(value, "class")?;
    let key = text_in(value, "key")?;
    let method_name = text_in(value, "method")?;
    let items = array_in(value, "args")?;
    let class = class_of(program, class_name)?;
    let method = method_of(program, class, method_name)?;
    let params = method_params(program, class, method);
    let args = arguments_of(alloc, program, params, items.as_slice())?;
    let key = Text::of(alloc, key)?;
    Ok(Request {
        id,
        act: Act::Call {
            class,
            key,
            method,
            args,
        },
    })
}

fn creation_of(alloc: Global, program: &Checked, value: &Json) -> Result<Request, LineError>
    ensures { Gives (spec.creation_of (source_of program.now) (view value.now)) result }
{
    let id = id_in(alloc, value)?;
    let class_name = text_in(value, "class")?;
    let items = array_in(value, "new")?;
    let class = class_of(program, class_name)?;
    let params = init_params(program, class);
    let args = arguments_of(alloc, program, params, items.as_slice())?;
    Ok(Request {
        id,
        act: Act::New { class, args },
    })
}

/// An object with as many members as a call has is read as one, which refuses it where a key is missing. So no
/// key is looked for twice.
fn request_of(alloc: Global, program: &Checked, value: &Json) -> Result<Request, LineError>
    ensures { Gives (spec.of_data (source_of program.now) (view value.now)) result }
{
    if has_size(value, CALL_MEMBERS) {
        return call_of(alloc, program, value);
    }
    if has_size(value, CREATION_MEMBERS) {
        return creation_of(alloc, program, value);
    }
    Err(LineError::Fault(LineFault::NotRequest))
}

/// The request that a line is, or the first refusal. The line is given without its line end.
pub fn read_line(alloc: Global, program: &Checked, line: &[u8]) -> Result<Request, LineError>
    ensures { Gives (spec.reading_of (source_of program.now) line.now) result }
{
    match parse(alloc, line)? {
        Some(value) => request_of(alloc, program, &value),
        None => Err(LineError::Fault(LineFault::NotJson)),
    }
}
