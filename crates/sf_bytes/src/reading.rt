//! Reading bytes from left to right.

ghost use Rattle.std.specs.Prelude.{◌≡◌};
ghost use Rattle.sf_bytes.specs.Reading.{Gives, number_at, long_at, int_at, text_at, ref_at, tagged_at, value_within, values_within};

use crate::fault::Unread;
use sf_list::Sequence;
use sf_value::{Ref, Text, Value, Values};
use std::alloc::Global;

#[tactic(auto, unfolding(crate::specs::Reading::number_at))]
pub(crate) fn number_of(bytes: &[u8]) -> Result<(u32, &[u8]), Unread>
    ensures { Gives (λ x. (x.0, x.1.now)) result (number_at bytes.now) }
{
    if bytes.len() < 4 {
        return Err(Unread::NoSpelling);
    }
    let (front, rest) = bytes.split_at(4);
    let number = u32::from_be_bytes([front[0], front[1], front[2], front[3]]);
    Ok((number, rest))
}

/// A number in eight bytes.
#[tactic(auto, unfolding(crate::specs::Reading::long_at))]
pub(crate) fn long_of(bytes: &[u8]) -> Result<(u64, &[u8]), Unread>
    ensures { Gives (λ x. (x.0, x.1.now)) result (long_at bytes.now) }
{
    if bytes.len() < 8 {
        return Err(Unread::NoSpelling);
    }
    let (front, rest) = bytes.split_at(8);
    let number = u64::from_be_bytes([
        front[0], front[1], front[2], front[3], front[4], front[5], front[6], front[7],
    ]);
    Ok((number, rest))
}

#[tactic(auto, unfolding(crate::specs::Reading::int_at))]
fn int_of(bytes: &[u8]) -> Result<(i128, &[u8]), Unread>
    ensures { Gives (λ x. (x.0, x.1.now)) result (int_at bytes.now) }
{
    if bytes.len() < 16 {
        return Err(Unread::NoSpelling);
    }
    let (front, rest) = bytes.split_at(16);
    let number = i128::from_be_bytes([
        front[0], front[1], front[2], front[3], front[4], front[5], front[6], front[7], front[8],
        front[9], front[10], front[11], front[12], front[13], front[14], front[15],
    ]);
    Ok((number, rest))
}

#[tactic(auto, unfolding(crate::specs::Reading::text_at))]
pub(crate) fn text_of(alloc: Global, bytes: &[u8]) -> Result<(Text, &[u8]), Unread>
    ensures { Gives (λ x. (x.0, x.1.now)) result (text_at bytes.now) }
{
    let (count, rest) = number_of(bytes)?;
    let count = count as usize;
    if rest.len() < count {
        return Err(Unread::NoSpelling);
    }
    let (front, rest) = rest.split_at(count);
    match std::str::from_utf8(front) {
        Ok(text) => Ok((Text::of(alloc, text)?, rest)),
        Err(_) => Err(Unread::NoSpelling),
    }
}

#[tactic(auto, unfolding(crate::specs::Reading::ref_at))]
pub(crate) fn ref_of(alloc: Global, bytes: &[u8]) -> Result<(Ref, &[u8]), Unread>
    ensures { Gives (λ x. (x.0, x.1.now)) result (ref_at bytes.now) }
{
    let (class, rest) = number_of(bytes)?;
    let (key, rest) = text_of(alloc, rest)?;
    Ok((Ref { class, key }, rest))
}

#[cycle(value)]
#[tactic(auto, unfolding(crate::specs::Reading::value_by, crate::specs::Reading::tagged_at))]
pub(crate) fn value_of(alloc: Global, level: u32, bytes: &[u8]) -> Result<(Value, &[u8]), Unread>
    ensures { Gives (λ x. (x.0, x.1.now)) result (value_within level bytes.now) }
{
    match bytes {
        [0, rest @ ..] => Ok((Value::Nil, rest)),
        [1, rest @ ..] => Ok((Value::Bool(false), rest)),
        [2, rest @ ..] => Ok((Value::Bool(true), rest)),
        [3, rest @ ..] => {
            let (number, rest) = int_of(rest)?;
            Ok((Value::Int(number), rest))
        }
        [4, rest @ ..] => {
            let (text, rest) = text_of(alloc, rest)?;
            Ok((Value::Str(text), rest))
        }
        [5, rest @ ..] => {
            let (values, rest) = values_of(alloc, level, rest)?;
            Ok((Value::List(values), rest))
        }
        [6, rest @ ..] => {
            let (entity, rest) = ref_of(alloc, rest)?;
            Ok((Value::Entity(entity), rest))
        }
        _ => Err(Unread::NoSpelling),
    }
}

/// A list of values. It is itself one of the levels that it may nest.
#[cycle(value)]
pub(crate) fn values_of(alloc: Global, level: u32, bytes: &[u8]) -> Result<(Values, &[u8]), Unread>
    ensures { Gives (λ x. (x.0, x.1.now)) result (values_within level bytes.now) }
{
    if level == 0 {
        return Err(Unread::NoSpelling);
    }
    let (count, mut rest) = number_of(bytes)?;
    let mut values = Sequence::new(alloc);
    for _ in 0..count {
        let (value, after) = value_of(alloc, level - 1, rest)?;
        values.push(alloc, value)?;
        rest = after;
    }
    Ok((values, rest))
}
