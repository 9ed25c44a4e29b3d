//! Arguments, by the types that their parameters declare.

ghost use Rattle.std.specs.Prelude.{◌≡◌, drop, IfOk, if◌then◌else◌};
ghost use Rattle.std.specs.Char.{is_ascii_digit};
ghost use Rattle.std.specs.List.{list_all};
ghost use Rattle.std.specs.Str.Parse.{starts_with_minus};
ghost use Rattle.serde_json.specs.View.{view, items_view};
ghost use Rattle.py_tree.specs.PlainTypes.{plain_written, type_of};
ghost use Rattle.py_tree.specs.PlainProgram.{plain_param, plain_params};
ghost use Rattle.program_meaning.specs.Sources.{source_of};
ghost use Rattle.request_json.specs.Arguments as spec;
ghost use Rattle.request_json.specs.RequestLines.{arguments_of as passed};
ghost use Rattle.request_json.specs.Answers.{Gives};

use crate::fault::{LineError, LineFault};
use py_tree::{Checked, Name, Param, WrittenKind, WrittenTy};
use serde_json::Value as Json;
use sf_list::Sequence;
use sf_value::{Ref, Text, Value, Values};
use std::alloc::{AllocError, Global};

/// An int has at most this many digits, zeros in front of it included.
const MOST_DIGITS: usize = 64;

/// A text without a minus in front of it.
fn digits_of(text: &[u8]) -> &[u8]
    ensures { result.now ≡ (if starts_with_minus text.now then drop 1 text.now else text.now) }
{
    match text {
        [b'-', digits @ ..] => digits,
        _ => text,
    }
}

fn all_digits(text: &[u8]) -> bool
    ensures { result ≡ list_all is_ascii_digit text.now }
{
    text.iter().all(|byte| byte.is_ascii_digit())
}

fn is_numeral(text: &[u8]) -> bool
    ensures { result ≡ spec.is_numeral text.now }
{
    !text.is_empty() && text.len() <= MOST_DIGITS && all_digits(text)
}

/// The int that a text of an optional minus and digits spells.
fn int_of_text(text: &str) -> Option<i128>
    ensures { result ≡ spec.int_of_text text.now }
{
    if !is_numeral(digits_of(text.as_bytes())) {
        return None;
    }
    match text.parse::<i128>() {
        Ok(number) => Some(number),
        Err(_) => None,
    }
}

fn int_of(json: &Json) -> Option<i128>
    ensures { result ≡ spec.int_of (view json.now) }
{
    match json {
        Json::Number(number) => number.as_i128(),
        Json::String(text) => int_of_text(text.as_str()),
        Json::Null | Json::Bool(_) | Json::Array(_) | Json::Object(_) => None,
    }
}

fn int_value(json: &Json) -> Option<Value>
    ensures { result ≡ spec.int_value (view json.now) }
{
    match int_of(json) {
        Some(number) => Some(Value::Int(number)),
        None => None,
    }
}

fn bool_value(json: &Json) -> Option<Value>
    ensures { result ≡ spec.bool_value (view json.now) }
{
    match json.as_bool() {
        Some(truth) => Some(Value::Bool(truth)),
        None => None,
    }
}

fn nil_value(json: &Json) -> Option<Value>
    ensures { result ≡ spec.nil_value (view json.now) }
{
    match json.as_null() {
        Some(()) => Some(Value::Nil),
        None => None,
    }
}

fn str_value(alloc: Global, json: &Json) -> Result<Option<Value>, AllocError>
    ensures { IfOk result (λ made. made ≡ spec.str_value (view json.now)) }
{
    match json.as_str() {
        Some(text) => Ok(Some(Value::Str(Text::of(alloc, text)?))),
        None => Ok(None),
    }
}

fn entity_value(
    alloc: Global,
    program: &Checked,
    class: Name,
    json: &Json,
) -> Result<Option<Value>, AllocError>
    ensures { IfOk result (λ made. made ≡ spec.entity_value (source_of program.now) class.0 (view json.now)) }
{
    let Some(class) = program.class_by_name(class) else {
        return Ok(None);
    };
    match json.as_str() {
        Some(key) => Ok(Some(Value::Entity(Ref {
            class,
            key: Text::of(alloc, key)?,
        }))),
        None => Ok(None),
    }
}

/// The values of this type that the items of an array are, where each is one.
#[cycle(values)]
fn values_of(
    alloc: Global,
    program: &Checked,
    element: &WrittenTy,
    items: &[Json],
) -> Result<Option<Values>, AllocError>
    ensures { IfOk result (λ made. made ≡ spec.values_of (source_of program.now) (type_of (plain_written element.now)) (items_view items.now)) }
{
    let mut made = Sequence::new(alloc);
    for item in items {
        let Some(value) = value_of(alloc, program, element, item)? else {
            return Ok(None);
        };
        made.push(alloc, value)?;
    }
    Ok(Some(made))
}

#[cycle(values)]
fn list_value(
    alloc: Global,
    program: &Checked,
    element: &WrittenTy,
    json: &Json,
) -> Result<Option<Value>, AllocError>
    ensures { IfOk result (λ made. made ≡ spec.list_value (spec.value_of (source_of program.now) (type_of (plain_written element.now))) (view json.now)) }
{
    let Some(items) = json.as_array() else {
        return Ok(None);
    };
    match values_of(alloc, program, element, items.as_slice())? {
        Some(values) => Ok(Some(Value::List(values))),
        None => Ok(None),
    }
}

#[cycle(values)]
fn optional_value(
    alloc: Global,
    program: &Checked,
    inner: &WrittenTy,
    json: &Json,
) -> Result<Option<Value>, AllocError>
    ensures { IfOk result (λ made. made ≡ spec.optional_value (spec.value_of (source_of program.now) (type_of (plain_written inner.now))) (view json.now)) }
{
    if json.is_null() {
        return Ok(Some(Value::Nil));
    }
    value_of(alloc, program, inner, json)
}

/// The value of this type that an argument is, where it is one.
#[cycle(values)]
#[tactic(auto, using(py_tree::proofs::Views::written_views))]
fn value_of(
    alloc: Global,
    program: &Checked,
    ty: &WrittenTy,
    json: &Json,
) -> Result<Option<Value>, AllocError>
    ensures { IfOk result (λ made. made ≡ spec.value_of (source_of program.now) (type_of (plain_written ty.now)) (view json.now)) }
{
    match &ty.kind {
        WrittenKind::Int => Ok(int_value(json)),
        WrittenKind::Bool => Ok(bool_value(json)),
        WrittenKind::Str => str_value(alloc, json),
        WrittenKind::Nil => Ok(nil_value(json)),
        WrittenKind::List(element) => list_value(alloc, program, element, json),
        WrittenKind::Optional(inner) => optional_value(alloc, program, inner, json),
        WrittenKind::Entity(class) => entity_value(alloc, program, *class, json),
    }
}

fn arg_of(
    alloc: Global,
    program: &Checked,
    param: &Param,
    json: &Json,
) -> Result<Option<Value>, AllocError>
    ensures { IfOk result (λ made. made ≡ spec.arg_of (source_of program.now) (plain_param param.now).ty (view json.now)) }
{
    match &param.ty {
        Some(ty) => value_of(alloc, program, ty, json),
        None => Ok(None),
    }
}

/// One argument for each parameter.
fn args_of(
    alloc: Global,
    program: &Checked,
    params: &[Param],
    items: &[Json],
) -> Result<Option<Values>, AllocError>
    ensures { IfOk result (λ made. made ≡ spec.args_of (source_of program.now) (plain_params params.now) (items_view items.now)) }
{
    let mut made = Sequence::with_room(alloc, params.len())?;
    for (i, param) in params.iter().enumerate() {
        if i >= items.len() {
            return Ok(None);
        }
        let Some(value) = arg_of(alloc, program, param, &items[i])? else {
            return Ok(None);
        };
        made.push(alloc, value)?;
    }
    if items.len() > params.len() {
        return Ok(None);
    }
    Ok(Some(made))
}

/// The arguments that are passed for these parameters.
pub(crate) fn arguments_of(
    alloc: Global,
    program: &Checked,
    params: &[Param],
    items: &[Json],
) -> Result<Values, LineError>
    ensures { Gives (passed (source_of program.now) (plain_params params.now) (items_view items.now)) result }
{
    if items.len() != params.len() {
        return Err(LineError::Fault(LineFault::ArgumentCount));
    }
    match args_of(alloc, program, params, items)? {
        Some(made) => Ok(made),
        None => Err(LineError::Fault(LineFault::ArgumentType)),
    }
}
