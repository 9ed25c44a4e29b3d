//! Numbers, texts and values, put behind other bytes.

ghost use Rattle.std.specs.Prelude.{◌<◌, ◌^◌, ◌∷◌, [], OnOk, OnErr};
ghost use Rattle.sf_bytes.specs.ByteForms.{number_bytes, long_bytes, int_bytes, text_bytes, ref_bytes, value_bytes, values_bytes};
ghost use Rattle.sf_bytes.specs.Spelt.{IsShortText, IsShort, AreShort, IsRealText, IsRealRef, IsReal, AreReal};

use crate::out::Out;
use sf_value::{Ref, Text, Value};

#[tactic(auto, unfolding(crate::specs::ByteForms::number_bytes))]
pub(crate) fn put_number<D, O: Out<D>>(out: &mut O, on: &mut D, number: u32) -> Result<(), O::Stop>
    ensures all { OnOk result (O.puts out.old on.old out.new on.new (number_bytes number)) }
    ensures part { OnErr result (O.stops out.old on.old out.new on.new) }
{
    out.put(on, &number.to_be_bytes())
}

/// A number in eight bytes.
#[tactic(auto, unfolding(crate::specs::ByteForms::long_bytes))]
pub(crate) fn put_long<D, O: Out<D>>(out: &mut O, on: &mut D, number: u64) -> Result<(), O::Stop>
    ensures all { OnOk result (O.puts out.old on.old out.new on.new (long_bytes number)) }
    ensures part { OnErr result (O.stops out.old on.old out.new on.new) }
{
    out.put(on, &number.to_be_bytes())
}

#[tactic(auto, unfolding(crate::specs::ByteForms::int_bytes))]
fn put_int<D, O: Out<D>>(out: &mut O, on: &mut D, number: i128) -> Result<(), O::Stop>
    ensures all { OnOk result (O.puts out.old on.old out.new on.new (int_bytes number)) }
    ensures part { OnErr result (O.stops out.old on.old out.new on.new) }
{
    out.put(on, &number.to_be_bytes())
}

fn put_tagged_int<D, O: Out<D>>(out: &mut O, on: &mut D, number: i128) -> Result<(), O::Stop>
    ensures all { OnOk result (O.puts out.old on.old out.new on.new (3 ∷ int_bytes number)) }
    ensures part { OnErr result (O.stops out.old on.old out.new on.new) }
{
    out.put(on, &[3])?;
    put_int(out, on, number)
}

#[tactic(auto, unfolding(crate::specs::ByteForms::text_bytes))]
pub(crate) fn put_text<D, O: Out<D>>(out: &mut O, on: &mut D, text: &Text) -> Result<(), O::Stop>
    requires { IsShortText text.now }
    ensures all { OnOk result (O.puts out.old on.old out.new on.new (text_bytes text.now)) }
    ensures part { OnErr result (O.stops out.old on.old out.new on.new) }
    ensures real { IsRealText text.now }
{
    let bytes = text.as_str().as_bytes();
    put_number(out, on, bytes.len() as u32)?;
    out.put(on, bytes)
}

#[tactic(auto, unfolding(crate::specs::ByteForms::ref_bytes))]
pub(crate) fn put_ref<D, O: Out<D>>(out: &mut O, on: &mut D, at: &Ref) -> Result<(), O::Stop>
    requires { IsShortText at.now.key }
    ensures all { OnOk result (O.puts out.old on.old out.new on.new (ref_bytes at.now)) }
    ensures part { OnErr result (O.stops out.old on.old out.new on.new) }
    ensures real { OnOk result (IsRealRef at.now) }
{
    put_number(out, on, at.class)?;
    put_text(out, on, &at.key)
}

#[cycle(value)]
#[tactic(auto, unfolding(crate::specs::ByteForms::value_bytes, crate::specs::Spelt::IsShort, crate::specs::Spelt::IsReal))]
pub(crate) fn put_value<D, O: Out<D>>(out: &mut O, on: &mut D, value: &Value) -> Result<(), O::Stop>
    requires { IsShort value.now }
    ensures all { OnOk result (O.puts out.old on.old out.new on.new (value_bytes value.now)) }
    ensures part { OnErr result (O.stops out.old on.old out.new on.new) }
    ensures real { OnOk result (IsReal value.now) }
{
    match value {
        Value::Nil => out.put(on, &[0]),
        Value::Bool(false) => out.put(on, &[1]),
        Value::Bool(true) => out.put(on, &[2]),
        Value::Int(number) => put_tagged_int(out, on, *number),
        Value::Str(text) => {
            out.put(on, &[4])?;
            put_text(out, on, text)
        }
        Value::List(values) => {
            out.put(on, &[5])?;
            put_values(out, on, values.as_slice())
        }
        Value::Entity(at) => {
            out.put(on, &[6])?;
            put_ref(out, on, at)
        }
    }
}

#[cycle(value)]
pub(crate) fn put_values<D, O: Out<D>>(
    out: &mut O,
    on: &mut D,
    values: &[Value],
) -> Result<(), O::Stop>
    requires { AreShort values.now }
    ensures all { OnOk result (O.puts out.old on.old out.new on.new (values_bytes values.now)) }
    ensures part { OnErr result (O.stops out.old on.old out.new on.new) }
    ensures real { OnOk result (AreReal values.now) }
{
    put_number(out, on, values.len() as u32)?;
    for value in values {
        put_value(out, on, value)?;
    }
    Ok(())
}
