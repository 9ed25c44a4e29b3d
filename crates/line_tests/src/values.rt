//! Weights of values, values and requests that are the same, and division that rounds down.

use sf_list::{Sequence, TryClone};
use sf_value::{Act, Request, Text, Value, floor_div, floor_mod, text_weight, weight};
use std::alloc::{AllocError, Global};
use std::test::Fail;

/// The list of a text and 1.
fn pair(alloc: Global, text: &str) -> Result<Value, AllocError> {
    let mut items = Sequence::new(alloc);
    items.push(alloc, Value::Str(Text::of(alloc, text)?))?;
    items.push(alloc, Value::Int(1))?;
    Ok(Value::List(items))
}

/// How much the list of a text and 1 weighs.
fn pair_weight(alloc: Global, text: &str) -> Result<u64, AllocError> {
    let pair = pair(alloc, text)?;
    let weight = weight(&pair);
    drop(pair);
    Ok(weight)
}

#[test]
fn a_list_weighs_one_and_its_elements(rt: HostRuntime) -> Result<(), Fail> {
    let pair = pair_weight(rt.alloc(), "ab")?;
    assert_eq!(rt; (pair, text_weight("ab")), (5, 3));
    Ok(())
}

/// Whether the lists of these texts and 1 are the same.
fn are_same_pairs(alloc: Global, first: &str, second: &str) -> Result<bool, AllocError> {
    let first = pair(alloc, first)?;
    let second = pair(alloc, second)?;
    let are_same = first.same(&second);
    drop(first);
    drop(second);
    Ok(are_same)
}

/// Whether the list of a text and 1 is the same as its copy.
fn is_same_as_its_copy(alloc: Global, text: &str) -> Result<bool, AllocError> {
    let pair = pair(alloc, text)?;
    let copy = pair.try_clone(alloc)?;
    let are_same = pair.same(&copy);
    drop(pair);
    drop(copy);
    Ok(are_same)
}

#[test]
fn lists_with_equal_elements_are_the_same(rt: HostRuntime) -> Result<(), Fail> {
    let same = are_same_pairs(rt.alloc(), "ab", "ab")?;
    let other = are_same_pairs(rt.alloc(), "ab", "ba")?;
    let copy = is_same_as_its_copy(rt.alloc(), "ab")?;
    assert_eq!(rt; (same, other, copy), (true, false, true));
    Ok(())
}

/// A call of the method of this number, without arguments.
fn call_of(alloc: Global, method: u32) -> Result<Request, AllocError> {
    Ok(Request {
        id: Text::of(alloc, "r1")?,
        act: Act::Call {
            class: 0,
            key: Text::of(alloc, "apple")?,
            method,
            args: Sequence::new(alloc),
        },
    })
}

/// Whether a copy of a call is the same as a call of the method of another number.
fn are_same_calls(alloc: Global, first: u32, second: u32) -> Result<bool, AllocError> {
    let first = call_of(alloc, first)?.try_clone(alloc)?;
    let second = call_of(alloc, second)?;
    let are_same = first.same(&second);
    drop(first);
    drop(second);
    Ok(are_same)
}

#[test]
fn a_request_differs_from_one_of_another_method(rt: HostRuntime) -> Result<(), Fail> {
    let same = are_same_calls(rt.alloc(), 0, 0)?;
    let other = are_same_calls(rt.alloc(), 0, 1)?;
    assert_eq!(rt; (same, other), (true, false));
    Ok(())
}

#[test]
fn quotients_are_rounded_down(rt: HostRuntime) {
    const LEAST: i128 = i128::MIN;
    const MOST: i128 = i128::MAX;
    for (label, x, y, quotient, remainder) in [
        ("both above 0", 7, 2, Some(3), Some(1)),
        ("below 0 by above 0", -7, 2, Some(-4), Some(1)),
        ("above 0 by below 0", 7, -2, Some(-4), Some(-1)),
        ("both below 0", -7, -2, Some(3), Some(-1)),
        ("nothing is left", -6, 2, Some(-3), Some(0)),
        ("1 by 0", 1, 0, None, None),
        ("7 by 0", 7, 0, None, None),
        ("least by -1", LEAST, -1, None, Some(0)),
        ("least by 1", LEAST, 1, Some(LEAST), Some(0)),
        ("least by most", LEAST, MOST, Some(-2), Some(MOST - 1)),
    ] {
        let found = (floor_div(x, y), floor_mod(x, y));
        assert_eq!(rt; found, (quotient, remainder), "{label}");
    }
}
