//! What is sent to a writer of JSON: values, the members of a reply, and those of a refusal.

ghost use Rattle.std.specs.Prelude.{◌≡◌, OnOk};
ghost use Rattle.serde_json.specs.Data.{string, number, unsigned, array, member, no_members};
ghost use Rattle.serde_json.specs.Events.{SendsValue, SendsMembers};
ghost use Rattle.request_json.specs.ReplyLines.{int_data, kind_name, value_reply, failure_reply, reply_data, bad_data};
ghost use Rattle.request_json.specs.RequestTexts.{passed_int};
ghost use Rattle.request_json.specs.Sending.{ints_of, SendsMember};
ghost use Rattle.request_json.specs.ValueData.{data_with, items_with};

use itoa::Buffer;
use serde::{Described, Serialize, Serializer};
use sf_value::{Failure, Outcome, Text, Value};

/// A reply by its request's id, with its place in the history.
#[derive(Drop)]
pub(crate) struct ReplyMembers<'a> {
    pub id: &'a Text,
    pub outcome: &'a Outcome,
    pub seq: u32,
}

impl<'a> Described for ReplyMembers<'a> {
    ghost writes = { λ reply. SendsValue (reply_data reply.id.now reply.outcome.now reply.seq) };
}

impl<'a> Serialize for ReplyMembers<'a> {
    fn serialize<S: Serializer>(&self, out: &mut S) -> Result<(), S::Error> {
        match self.outcome {
            Outcome::Value(value) => send_result(self.id, value, self.seq, out),
            Outcome::Failed(failure) => send_failure(self.id, failure, self.seq, out),
        }
    }
}

/// What is wrong with a line of the input, with the line's number.
#[derive(Drop)]
pub(crate) struct RefusalMembers<'a> {
    pub text: &'a str,
    pub line: u64,
}

impl<'a> Described for RefusalMembers<'a> {
    ghost writes = { λ refusal. SendsValue (bad_data refusal.text.now refusal.line) };
}

impl<'a> Serialize for RefusalMembers<'a> {
    fn serialize<S: Serializer>(&self, out: &mut S) -> Result<(), S::Error> {
        out.begin_map(Some(2))?;
        send_text("bad", self.text, out)?;
        send_end("line", self.line, out)
    }
}

/// The name of a kind of failure by its number.
#[tactic(auto, unfolding(crate::specs::ReplyLines::kind_name))]
fn kind_text(kind: u8) -> &'static str
    ensures { result.now ≡ kind_name kind }
{
    match kind {
        1 => "ZeroDivisionError",
        2 => "IndexError",
        3 => "AssertionError",
        4 => "RecursionError",
        5 => "OverflowError",
        6 => "Exception",
        7 => "ValueError",
        8 => "RuntimeError",
        9 => "NoEntity",
        10 => "AlreadyExists",
        11 => "SizeLimit",
        _ => "StepLimit",
    }
}

/// Which ints are numbers in a line; others are texts of their digits.
#[derive(Clone, Copy, PartialEq, Eq, Debug)]
pub(crate) enum Ints {
    /// Those that fit 64 bits with a sign, as a reply has them.
    Replied,
    /// Those that fit 64 bits, with a sign or without, as a request has them.
    Passed,
}

fn send_replied<S: Serializer>(n: i128, out: &mut S) -> Result<(), S::Error>
    ensures { OnOk result (SendsValue (int_data n) (S.written out.old) (S.written out.new)) }
{
    match i64::try_from(n) {
        Ok(short) => match u64::try_from(short) {
            Ok(natural) => out.u64(natural),
            Err(_) => out.i64(short),
        },
        Err(_) => out.str(Buffer::new().format(n)),
    }
}

fn send_passed<S: Serializer>(n: i128, out: &mut S) -> Result<(), S::Error>
    ensures { OnOk result (SendsValue (passed_int n) (S.written out.old) (S.written out.new)) }
{
    match u64::try_from(n) {
        Ok(natural) => out.u64(natural),
        Err(_) => send_replied(n, out),
    }
}

fn send_int<S: Serializer>(n: i128, ints: Ints, out: &mut S) -> Result<(), S::Error>
    ensures { OnOk result (SendsValue (ints_of ints n) (S.written out.old) (S.written out.new)) }
{
    match ints {
        Ints::Replied => send_replied(n, out),
        Ints::Passed => send_passed(n, out),
    }
}

/// The elements of a list, one after another.
#[cycle(values)]
pub(crate) fn send_values<S: Serializer>(
    values: &[Value],
    ints: Ints,
    out: &mut S,
) -> Result<(), S::Error>
    ensures { OnOk result (SendsValue (array (items_with (ints_of ints) values.now)) (S.written out.old) (S.written out.new)) }
{
    out.begin_seq(Some(values.len()))?;
    for value in values {
        send_value(value, ints, out)?;
    }
    out.end_seq()
}

/// A value, in the form that an argument and a result have.
#[cycle(values)]
fn send_value<S: Serializer>(value: &Value, ints: Ints, out: &mut S) -> Result<(), S::Error>
    ensures { OnOk result (SendsValue (data_with (ints_of ints) value.now) (S.written out.old) (S.written out.new)) }
{
    match value {
        Value::Int(n) => send_int(*n, ints, out),
        Value::Bool(truth) => out.bool(*truth),
        Value::Str(text) => out.str(text.as_str()),
        Value::Nil => out.unit(),
        Value::List(items) => send_values(items.as_slice(), ints, out),
        Value::Entity(at) => out.str(at.key.as_str()),
    }
}

/// A member that is a text.
pub(crate) fn send_text<S: Serializer>(key: &str, text: &str, out: &mut S) -> Result<(), S::Error>
    ensures { OnOk result (SendsMember key.now (string text.now) (S.written out.old) (S.written out.new)) }
{
    out.key(key)?;
    out.str(text)
}

/// The last member, which is a number, and the end of the object.
fn send_end<S: Serializer>(key: &str, n: u64, out: &mut S) -> Result<(), S::Error>
    ensures { OnOk result (SendsMembers (member key.now (number (unsigned n)) no_members) (S.written out.old) (S.written out.new)) }
{
    out.key(key)?;
    out.u64(n)?;
    out.end_map()
}

/// The reply of a call that gave a value.
fn send_result<S: Serializer>(
    id: &Text,
    value: &Value,
    seq: u32,
    out: &mut S,
) -> Result<(), S::Error>
    ensures { OnOk result (SendsValue (value_reply id.now value.now seq) (S.written out.old) (S.written out.new)) }
{
    out.begin_map(Some(3))?;
    send_text("id", id.as_str(), out)?;
    out.key("ok")?;
    send_value(value, Ints::Replied, out)?;
    send_end("seq", u64::from(seq), out)
}

/// The reply of a call that failed.
fn send_failure<S: Serializer>(
    id: &Text,
    failure: &Failure,
    seq: u32,
    out: &mut S,
) -> Result<(), S::Error>
    ensures { OnOk result (SendsValue (failure_reply id.now failure.now seq) (S.written out.old) (S.written out.new)) }
{
    out.begin_map(Some(4))?;
    send_text("error", kind_text(failure.kind), out)?;
    send_text("id", id.as_str(), out)?;
    send_text("message", failure.message.as_str(), out)?;
    send_end("seq", u64::from(seq), out)
}
