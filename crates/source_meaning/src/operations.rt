//! What operators and functions make of values.

ghost use Rattle.std.specs.Prelude.{◌≡◌, ◌++◌, length, pos, ◌+ℤ◌, ◌-ℤ◌, ◌*ℤ◌, IfOk};
ghost use Rattle.std.specs.Ordering.{nat_cmp};
ghost use Rattle.std.specs.Cmp.Lexicographic.{slice_cmp};
ghost use Rattle.std.specs.Option.{option_copied};
ghost use Rattle.py_tree.specs.Functions.{plain_function};
ghost use Rattle.std.specs.Fmt.{signed_decimal};
ghost use Rattle.std.specs.Str.{chars};
ghost use Rattle.sf_value.specs.Arithmetic.{floor_quotient, floor_rest};
ghost use Rattle.sf_value.specs.Sameness.{same_value};
ghost use Rattle.sf_value.specs.declared.value.Value.{out-Value};
ghost use Rattle.sf_value.specs.declared.value.Value.TheVariants as value;
ghost use Rattle.program_meaning.specs.Operations.{in_range, divided, weighed, int_of, is_true as true_value, is_nil as nil_value, text_of, items_of, element, element_at, combined, sum_with, holds as the_holds, order as the_order, absolute, given_by, argument, size_in};
ghost use Rattle.source_meaning.specs.Agrees.{Tells};
ghost use Rattle.source_meaning.specs.InPlace.{Passes};

use crate::Stop;
use crate::failures::{
    INDEX_ERROR, OVERFLOW_ERROR, SIZE_LIMIT, ZERO_DIVISION_ERROR, empty_text, fail,
};
use py_tree::{BinOp, Cmp, Function};
use sf_list::{Sequence, TryClone};
use sf_value::{Text, Value, Values, WEIGHT_LIMIT, floor_div, floor_mod, weight};
use std::alloc::{AllocError, Global};
use std::cmp::Ordering;

/// A value that an expression gives, which weighs no more than it may.
#[tactic(auto, unfolding(program_meaning::specs::Operations::weighed))]
pub(crate) fn weigh(alloc: Global, value: Value) -> Result<Value, Stop>
    ensures { Tells result (weighed value) }
{
    if weight(&value) > WEIGHT_LIMIT {
        return Err(fail(alloc, SIZE_LIMIT));
    }
    Ok(value)
}

/// Tests the weight of a value where it stands.
#[tactic(auto, unfolding(program_meaning::specs::Operations::weighed))]
pub(crate) fn check_weight(alloc: Global, value: &Value) -> Result<(), Stop>
    ensures { Passes result value.now }
{
    if weight(value) > WEIGHT_LIMIT {
        return Err(fail(alloc, SIZE_LIMIT));
    }
    Ok(())
}

/// The number that a value is.
pub(crate) fn number(value: &Value) -> i128
    ensures { result ≡ int_of value.now }
{
    match value {
        Value::Int(n) => *n,
        Value::Bool(_) | Value::Str(_) | Value::Nil | Value::List(_) | Value::Entity(_) => 0,
    }
}

/// Whether a value is True.
pub(crate) fn is_true(value: &Value) -> bool
    ensures { result ≡ true_value value.now }
{
    match value {
        Value::Bool(truth) => *truth,
        Value::Int(_) | Value::Str(_) | Value::Nil | Value::List(_) | Value::Entity(_) => false,
    }
}

/// Whether a value is None.
pub(crate) fn is_nil(value: &Value) -> bool
    ensures { result ≡ nil_value value.now }
{
    match value {
        Value::Nil => true,
        Value::Int(_) | Value::Bool(_) | Value::Str(_) | Value::List(_) | Value::Entity(_) => false,
    }
}

/// The text that a value is.
pub(crate) fn text(alloc: Global, value: &Value) -> Result<Text, AllocError>
    ensures { IfOk result (λ text. text ≡ text_of value.now) }
{
    match value {
        Value::Str(text) => text.try_clone(alloc),
        Value::Int(_) | Value::Bool(_) | Value::Nil | Value::List(_) | Value::Entity(_) => {
            empty_text(alloc)
        }
    }
}

/// Whether a value is True, which is given up.
pub fn take_truth(value: Value) -> bool
    ensures { result ≡ true_value value }
{
    let truth = is_true(&value);
    drop(value);
    truth
}

/// Whether a value is None, which is given up.
pub(crate) fn take_nil(value: Value) -> bool
    ensures { result ≡ nil_value value }
{
    let nil = is_nil(&value);
    drop(value);
    nil
}

/// The number that a value is, which is given up.
pub(crate) fn take_number(value: Value) -> i128
    ensures { result ≡ int_of value }
{
    let n = number(&value);
    drop(value);
    n
}

/// The text that a value is, which is given up.
pub fn take_text(alloc: Global, value: Value) -> Result<Text, AllocError>
    ensures { IfOk result (λ text. text ≡ text_of value) }
{
    let made = text(alloc, &value);
    drop(value);
    made
}

/// The elements of the list that a value is.
pub(crate) fn items(value: &Value) -> &[Value]
    ensures { result.now ≡ items_of value.now }
{
    match value {
        Value::List(items) => items.as_slice(),
        Value::Int(_) | Value::Bool(_) | Value::Str(_) | Value::Nil | Value::Entity(_) => &[],
    }
}

/// The element at a place, which counts from the end where it is negative.
fn element_of(items: &[Value], index: i128) -> Option<&Value>
    ensures { element_at (option_copied result) ≡ element items.now index }
{
    if index < 0 {
        let back = usize::try_from(index.unsigned_abs()).ok()?;
        let at = items.len().checked_sub(back)?;
        items.get(at)
    } else {
        items.get(usize::try_from(index).ok()?)
    }
}

/// A copy of the element of a list at a place.
pub(crate) fn element_copy(alloc: Global, list: &Value, index: &Value) -> Result<Value, Stop>
    ensures { Tells result (element (items_of list.now) (int_of index.now)) }
{
    match element_of(items(list), number(index)) {
        Some(value) => Ok(value.try_clone(alloc)?),
        None => Err(fail(alloc, INDEX_ERROR)),
    }
}

/// A copy of the element of a list at a place, which are given up.
pub(crate) fn take_element(alloc: Global, list: Value, index: Value) -> Result<Value, Stop>
    ensures { Tells result (element (items_of list) (int_of index)) }
{
    let item = element_copy(alloc, &list, &index);
    drop(list);
    drop(index);
    item
}

/// The sum of two numbers.
#[tactic(auto, unfolding(program_meaning::specs::Operations::in_range))]
fn add(alloc: Global, x: i128, y: i128) -> Result<Value, Stop>
    ensures { Tells result (in_range (x +ℤ y)) }
{
    match x.checked_add(y) {
        Some(n) => Ok(Value::Int(n)),
        None => Err(fail(alloc, OVERFLOW_ERROR)),
    }
}

/// The difference of two numbers.
#[tactic(auto, unfolding(program_meaning::specs::Operations::in_range))]
fn subtract(alloc: Global, x: i128, y: i128) -> Result<Value, Stop>
    ensures { Tells result (in_range (x -ℤ y)) }
{
    match x.checked_sub(y) {
        Some(n) => Ok(Value::Int(n)),
        None => Err(fail(alloc, OVERFLOW_ERROR)),
    }
}

/// The product of two numbers.
#[tactic(auto, unfolding(program_meaning::specs::Operations::in_range))]
fn multiply(alloc: Global, x: i128, y: i128) -> Result<Value, Stop>
    ensures { Tells result (in_range (x *ℤ y)) }
{
    match x.checked_mul(y) {
        Some(n) => Ok(Value::Int(n)),
        None => Err(fail(alloc, OVERFLOW_ERROR)),
    }
}

/// `x // y`
fn divide(alloc: Global, x: i128, y: i128) -> Result<Value, Stop>
    ensures { Tells result (divided y (in_range (floor_quotient x y))) }
{
    if y == 0 {
        return Err(fail(alloc, ZERO_DIVISION_ERROR));
    }
    match floor_div(x, y) {
        Some(n) => Ok(Value::Int(n)),
        None => Err(fail(alloc, OVERFLOW_ERROR)),
    }
}

/// `x % y`
fn rest(alloc: Global, x: i128, y: i128) -> Result<Value, Stop>
    ensures { Tells result (divided y (in_range (floor_rest x y))) }
{
    match floor_mod(x, y) {
        Some(n) => Ok(Value::Int(n)),
        None => Err(fail(alloc, ZERO_DIVISION_ERROR)),
    }
}

/// The number with its sign turned.
#[tactic(auto, unfolding(program_meaning::specs::Operations::in_range))]
pub(crate) fn negate(alloc: Global, value: Value) -> Result<Value, Stop>
    ensures { Tells result (in_range (pos 0 -ℤ int_of value)) }
{
    match take_number(value).checked_neg() {
        Some(n) => Ok(Value::Int(n)),
        None => Err(fail(alloc, OVERFLOW_ERROR)),
    }
}

/// A list with the elements of another behind its own.
fn join_items(alloc: Global, left: &Values, right: &[Value]) -> Result<Values, AllocError>
    ensures { IfOk result (λ made. made ≡ left.now ++ right.now) }
{
    let mut made = left.try_clone(alloc)?;
    for value in right {
        made.push(alloc, value.try_clone(alloc)?)?;
    }
    Ok(made)
}

/// `left + right`: a sum, a text or a list.
#[tactic(auto, using(sf_value::proofs::Variants::by_variants))]
fn plus(alloc: Global, left: &Value, right: &Value) -> Result<Value, Stop>
    ensures { Tells result (sum_with (out-Value left.now) right.now) }
{
    match left {
        Value::Int(x) => add(alloc, *x, number(right)),
        Value::Str(x) => {
            let y = text(alloc, right)?;
            weigh(alloc, Value::Str(x.joined(alloc, &y)?))
        }
        Value::List(xs) => {
            let joined = join_items(alloc, xs, items(right))?;
            weigh(alloc, Value::List(joined))
        }
        Value::Bool(_) | Value::Nil | Value::Entity(_) => Ok(Value::Nil),
    }
}

/// `left op right`
#[tactic(auto, unfolding(program_meaning::specs::Operations::combined))]
pub(crate) fn combine(alloc: Global, op: BinOp, left: &Value, right: &Value) -> Result<Value, Stop>
    ensures { Tells result (combined op left.now right.now) }
{
    match op {
        BinOp::Add => plus(alloc, left, right),
        BinOp::Sub => subtract(alloc, number(left), number(right)),
        BinOp::Mul => multiply(alloc, number(left), number(right)),
        BinOp::FloorDiv => divide(alloc, number(left), number(right)),
        BinOp::Mod => rest(alloc, number(left), number(right)),
    }
}

/// `left op right`, which are given up.
pub(crate) fn take_both(alloc: Global, op: BinOp, left: Value, right: Value) -> Result<Value, Stop>
    ensures { Tells result (combined op left right) }
{
    let both = combine(alloc, op, &left, &right);
    drop(left);
    drop(right);
    both
}

/// The order of two texts by their code points.
fn order_of_texts(left: &str, right: &str) -> Ordering
    ensures { result ≡ slice_cmp nat_cmp (chars left.now) (chars right.now) }
{
    left.chars().cmp(right.chars())
}

/// The text that a value is.
fn text_in(value: &Value) -> &str
    ensures { chars result.now ≡ text_of value.now }
{
    match value {
        Value::Str(text) => text.as_str(),
        Value::Int(_) | Value::Bool(_) | Value::Nil | Value::List(_) | Value::Entity(_) => "",
    }
}

/// The order of two numbers by size, or of two texts.
#[tactic(auto, using(crate::proofs::OperationLaws::texts_in_order))]
fn order(left: &Value, right: &Value) -> Ordering
    ensures { result ≡ the_order left.now right.now }
{
    match left {
        Value::Str(text) => order_of_texts(text.as_str(), text_in(right)),
        Value::Int(_) | Value::Bool(_) | Value::Nil | Value::List(_) | Value::Entity(_) => {
            number(left).cmp(&number(right))
        }
    }
}

/// Whether a comparison holds.
#[tactic(auto, unfolding(program_meaning::specs::Operations::holds))]
pub(crate) fn holds(op: Cmp, left: &Value, right: &Value) -> bool
    ensures { result ≡ the_holds op left.now right.now }
{
    match op {
        Cmp::Eq => is_same(left, right),
        Cmp::Ne => !is_same(left, right),
        Cmp::Lt => order(left, right).is_lt(),
        Cmp::Gt => order(left, right).is_gt(),
        Cmp::Le => order(left, right).is_le(),
        Cmp::Ge => order(left, right).is_ge(),
    }
}

/// Whether a comparison holds of values that are given up.
pub(crate) fn take_comparison(op: Cmp, left: Value, right: Value) -> bool
    ensures { result ≡ the_holds op left right }
{
    let holds = holds(op, &left, &right);
    drop(left);
    drop(right);
    holds
}

fn is_same(left: &Value, right: &Value) -> bool
    ensures { result ≡ same_value left.now right.now }
{
    left.same(right)
}

/// How many code points a text has.
fn code_points(text: &str) -> usize
    ensures { result ≡ length (chars text.now) }
{
    text.chars().count()
}

/// How many code points a text has, or how many elements a list has.
pub(crate) fn size(value: &Value) -> i128
    ensures { result ≡ pos (size_in (out-Value value.now)) }
{
    match value {
        Value::Str(text) => code_points(text.as_str()) as i128,
        Value::List(items) => items.len() as i128,
        Value::Int(_) | Value::Bool(_) | Value::Nil | Value::Entity(_) => 0,
    }
}

/// The argument at a place.
fn argument_number(args: &Values, at: usize) -> i128
    ensures { result ≡ int_of (argument args.now at) }
{
    match args.get(at) {
        Some(value) => number(value),
        None => 0,
    }
}

/// The decimal digits of a number, as a value that an expression gives.
fn digits(alloc: Global, n: i128) -> Result<Value, Stop>
    ensures { Tells result (weighed (value.Str (chars (signed_decimal n)))) }
{
    let written = n.to_string(alloc)?;
    weigh(alloc, Value::Str(Text::of(alloc, written.as_str())?))
}

/// A number without its sign.
#[tactic(auto, unfolding(program_meaning::specs::Operations::in_range))]
fn magnitude(alloc: Global, n: i128) -> Result<Value, Stop>
    ensures { Tells result (in_range (absolute n)) }
{
    match n.checked_abs() {
        Some(n) => Ok(Value::Int(n)),
        None => Err(fail(alloc, OVERFLOW_ERROR)),
    }
}

fn length_of(args: &Values) -> i128
    ensures { result ≡ pos (size_in (out-Value (argument args.now 0))) }
{
    match args.get(0) {
        Some(value) => size(value),
        None => 0,
    }
}

/// What a function gives.
#[tactic(auto, unfolding(program_meaning::specs::Operations::given_by))]
pub(crate) fn give(alloc: Global, function: Function, args: &Values) -> Result<Value, Stop>
    ensures { Tells result (given_by (plain_function function) args.now) }
{
    let (x, y) = (argument_number(args, 0), argument_number(args, 1));
    match function {
        Function::Length => Ok(Value::Int(length_of(args))),
        Function::Text => digits(alloc, x),
        Function::Absolute => magnitude(alloc, x),
        Function::Least => Ok(Value::Int(if x > y { y } else { x })),
        Function::Greatest => Ok(Value::Int(if x < y { y } else { x })),
    }
}
