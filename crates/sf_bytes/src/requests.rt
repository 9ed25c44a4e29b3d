//! Requests, and what they come to.

ghost use Rattle.std.specs.Prelude.{◌++◌, OnOk, OnErr};
ghost use Rattle.sf_bytes.specs.ByteForms.{number_bytes, text_bytes, values_bytes, act_bytes, request_bytes, failure_bytes, outcome_bytes};
ghost use Rattle.sf_value.specs.declared.Act.TheVariants.{Call, New};
ghost use Rattle.sf_bytes.specs.Reading.{Gives, act_at, request_at, failure_at, outcome_at};
ghost use Rattle.sf_bytes.specs.Spelt.{IsSpeltAct, IsSpeltRequest, IsSpeltFailure, IsSpeltOutcome, IsRealAct, IsRealRequest, IsRealText, IsRealOutcome};

use crate::LEVELS;
use crate::fault::Unread;
use crate::items::Item;
use crate::out::Out;
use crate::reading::{number_of, ref_of, text_of, value_of, values_of};
use crate::writing::{put_number, put_text, put_value, put_values};
use sf_value::{Act, Failure, Outcome, Request, Text, Values};
use std::alloc::Global;

#[tactic(auto, unfolding(crate::specs::Reading::act_at))]
fn act_of(alloc: Global, bytes: &[u8]) -> Result<(Act, &[u8]), Unread>
    ensures { Gives (λ x. (x.0, x.1.now)) result (act_at bytes.now) }
{
    match bytes {
        [0, rest @ ..] => {
            let (at, rest) = ref_of(alloc, rest)?;
            let (method, rest) = number_of(rest)?;
            let (args, rest) = values_of(alloc, LEVELS, rest)?;
            let (class, key) = (at.class, at.key);
            Ok((
                Act::Call {
                    class,
                    key,
                    method,
                    args,
                },
                rest,
            ))
        }
        [1, rest @ ..] => {
            let (class, rest) = number_of(rest)?;
            let (args, rest) = values_of(alloc, LEVELS, rest)?;
            Ok((Act::New { class, args }, rest))
        }
        _ => Err(Unread::NoSpelling),
    }
}

#[tactic(auto, unfolding(crate::specs::Reading::request_at))]
pub(crate) fn request_of(alloc: Global, bytes: &[u8]) -> Result<(Request, &[u8]), Unread>
    ensures { Gives (λ x. (x.0, x.1.now)) result (request_at bytes.now) }
{
    let (id, rest) = text_of(alloc, bytes)?;
    let (act, rest) = act_of(alloc, rest)?;
    Ok((Request { id, act }, rest))
}

#[tactic(auto, unfolding(crate::specs::Reading::failure_at))]
fn failure_of(alloc: Global, bytes: &[u8]) -> Result<(Failure, &[u8]), Unread>
    ensures { Gives (λ x. (x.0, x.1.now)) result (failure_at bytes.now) }
{
    match bytes {
        [kind @ 1..=12, rest @ ..] => {
            let (message, rest) = text_of(alloc, rest)?;
            Ok((
                Failure {
                    kind: *kind,
                    message,
                },
                rest,
            ))
        }
        _ => Err(Unread::NoSpelling),
    }
}

#[tactic(auto, unfolding(crate::specs::Reading::outcome_at))]
pub(crate) fn outcome_of(alloc: Global, bytes: &[u8]) -> Result<(Outcome, &[u8]), Unread>
    ensures { Gives (λ x. (x.0, x.1.now)) result (outcome_at bytes.now) }
{
    match bytes {
        [0, rest @ ..] => {
            let (value, rest) = value_of(alloc, LEVELS, rest)?;
            Ok((Outcome::Value(value), rest))
        }
        [1, rest @ ..] => {
            let (failure, rest) = failure_of(alloc, rest)?;
            Ok((Outcome::Failed(failure), rest))
        }
        _ => Err(Unread::NoSpelling),
    }
}

/// What follows the first byte of a call.
fn put_called<D, O: Out<D>>(
    out: &mut O,
    on: &mut D,
    class: u32,
    key: &Text,
    method: u32,
    args: &Values,
) -> Result<(), O::Stop>
    requires { IsSpeltAct (Call class key.now method args.now) }
    ensures all { OnOk result (O.puts out.old on.old out.new on.new (number_bytes class ++ text_bytes key.now ++ number_bytes method ++ values_bytes args.now)) }
    ensures part { OnErr result (O.stops out.old on.old out.new on.new) }
    ensures real { OnOk result (IsRealAct (Call class key.now method args.now)) }
{
    put_number(out, on, class)?;
    put_text(out, on, key)?;
    put_number(out, on, method)?;
    put_values(out, on, args.as_slice())
}

/// What follows the first byte of a creation.
fn put_created<D, O: Out<D>>(
    out: &mut O,
    on: &mut D,
    class: u32,
    args: &Values,
) -> Result<(), O::Stop>
    requires { IsSpeltAct (New class args.now) }
    ensures all { OnOk result (O.puts out.old on.old out.new on.new (number_bytes class ++ values_bytes args.now)) }
    ensures part { OnErr result (O.stops out.old on.old out.new on.new) }
    ensures real { OnOk result (IsRealAct (New class args.now)) }
{
    put_number(out, on, class)?;
    put_values(out, on, args.as_slice())
}

#[tactic(auto, unfolding(crate::specs::ByteForms::act_bytes))]
fn put_act<D, O: Out<D>>(out: &mut O, on: &mut D, act: &Act) -> Result<(), O::Stop>
    requires { IsSpeltAct act.now }
    ensures all { OnOk result (O.puts out.old on.old out.new on.new (act_bytes act.now)) }
    ensures part { OnErr result (O.stops out.old on.old out.new on.new) }
    ensures real { OnOk result (IsRealAct act.now) }
{
    match act {
        Act::Call {
            class,
            key,
            method,
            args,
        } => {
            out.put(on, &[0])?;
            put_called(out, on, *class, key, *method, args)
        }
        Act::New { class, args } => {
            out.put(on, &[1])?;
            put_created(out, on, *class, args)
        }
    }
}

/// A request, of which id and act may stand in two places.
#[tactic(auto, unfolding(crate::specs::ByteForms::request_bytes))]
pub(crate) fn put_asked<D, O: Out<D>>(
    out: &mut O,
    on: &mut D,
    id: &Text,
    act: &Act,
) -> Result<(), O::Stop>
    requires { IsSpeltRequest (record { id = id.now; act = act.now }) }
    ensures all { OnOk result (O.puts out.old on.old out.new on.new (request_bytes (record { id = id.now; act = act.now }))) }
    ensures part { OnErr result (O.stops out.old on.old out.new on.new) }
    ensures real { OnOk result (IsRealRequest (record { id = id.now; act = act.now })) }
{
    put_text(out, on, id)?;
    put_act(out, on, act)
}

pub(crate) fn put_request<D, O: Out<D>>(
    out: &mut O,
    on: &mut D,
    request: &Request,
) -> Result<(), O::Stop>
    requires { IsSpeltRequest request.now }
    ensures all { OnOk result (O.puts out.old on.old out.new on.new (request_bytes request.now)) }
    ensures part { OnErr result (O.stops out.old on.old out.new on.new) }
    ensures real { OnOk result (IsRealRequest request.now) }
{
    put_asked(out, on, &request.id, &request.act)
}

#[tactic(auto, unfolding(crate::specs::ByteForms::failure_bytes))]
fn put_failure<D, O: Out<D>>(out: &mut O, on: &mut D, failure: &Failure) -> Result<(), O::Stop>
    requires { IsSpeltFailure failure.now }
    ensures all { OnOk result (O.puts out.old on.old out.new on.new (failure_bytes failure.now)) }
    ensures part { OnErr result (O.stops out.old on.old out.new on.new) }
    ensures real { OnOk result (IsRealText failure.now.message) }
{
    out.put(on, &[failure.kind])?;
    put_text(out, on, &failure.message)
}

#[tactic(auto, unfolding(crate::specs::ByteForms::outcome_bytes))]
pub(crate) fn put_outcome<D, O: Out<D>>(
    out: &mut O,
    on: &mut D,
    outcome: &Outcome,
) -> Result<(), O::Stop>
    requires { IsSpeltOutcome outcome.now }
    ensures all { OnOk result (O.puts out.old on.old out.new on.new (outcome_bytes outcome.now)) }
    ensures part { OnErr result (O.stops out.old on.old out.new on.new) }
    ensures real { OnOk result (IsRealOutcome outcome.now) }
{
    match outcome {
        Outcome::Value(value) => {
            out.put(on, &[0])?;
            put_value(out, on, value)
        }
        Outcome::Failed(failure) => {
            out.put(on, &[1])?;
            put_failure(out, on, failure)
        }
    }
}

impl Item for Request {
    ghost use Rattle.sf_bytes.specs.ByteForms.{request_bytes};
    ghost use Rattle.sf_bytes.specs.Reading.{request_at};
    ghost use Rattle.sf_bytes.specs.Spelt.{IsSpeltRequest, IsRealRequest};

    ghost reads = { request_at };

    ghost bytes_of = { request_bytes };

    ghost is_spelt = { IsSpeltRequest };

    ghost is_real = { IsRealRequest };

    fn read(alloc: Global, bytes: &[u8]) -> Result<(Request, &[u8]), Unread> {
        request_of(alloc, bytes)
    }

    fn put<D, O: Out<D>>(&self, out: &mut O, on: &mut D) -> Result<(), O::Stop> {
        put_request(out, on, self)
    }
}
