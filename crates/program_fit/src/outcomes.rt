//! What requests came to, by what they asked for.

ghost use Rattle.std.specs.Prelude.{◌≡◌, ◌↔◌, IsTrue, List, ℕ};
ghost use Rattle.entity_tables.specs.Views.{plain_tables};
ghost use Rattle.program_meaning.specs.Fits.{AnswerFits, FailureFits, IsCreated, OutcomeFits, ResultFits};
ghost use Rattle.request_history.specs.SoundHistory.{RequestFits};

use crate::requests::request_fits;
use crate::tables::{method_of, table_of};
use crate::values::value_fits;
use entity_tables::ClassTable;
use sf_value::{Act, Entry, Failure, Outcome, Value};

/// The kinds of failures are numbered from 1 up to this.
const MOST_KINDS: u8 = 12;

fn failure_fits(failure: &Failure) -> bool
    ensures { IsTrue result ↔ FailureFits failure.now }
{
    1 <= failure.kind && failure.kind <= MOST_KINDS
}

/// Whether a value fits the result type of the method that was called.
fn result_fits(tables: &[ClassTable], class: u32, method: u32, value: &Value) -> bool
    ensures { IsTrue result ↔ ResultFits (plain_tables tables.now) class method value.now }
{
    match method_of(tables, class, method) {
        Some(sig) => value_fits(tables, &sig.result, value),
        None => false,
    }
}

/// Whether a value is the entity of this class whose key is that text.
fn is_entity(class: u32, key: &Value, value: &Value) -> bool
    ensures { IsTrue result
        ↔ ((text : List ℕ) × (key.now ≡ Value.Str text) × (value.now ≡ Value.Entity (record { class = class; key = text }))) }
{
    match (key, value) {
        (Value::Str(text), Value::Entity(at)) => at.class == class && at.key.same(text),
        _ => false,
    }
}

/// Whether a value is the entity that a creation with these arguments makes.
fn is_created(tables: &[ClassTable], class: u32, args: &[Value], value: &Value) -> bool
    ensures { IsTrue result ↔ IsCreated (plain_tables tables.now) class args.now value.now }
{
    let Some(table) = table_of(tables, class) else {
        return false;
    };
    match args.get(table.key_param as usize) {
        Some(key) => is_entity(class, key, value),
        None => false,
    }
}

fn answer_fits(tables: &[ClassTable], act: &Act, value: &Value) -> bool
    ensures { IsTrue result ↔ AnswerFits (plain_tables tables.now) act.now value.now }
{
    match act {
        Act::Call {
            class,
            key: _,
            method,
            args: _,
        } => result_fits(tables, *class, *method, value),
        Act::New { class, args } => is_created(tables, *class, args.as_slice(), value),
    }
}

fn outcome_fits(tables: &[ClassTable], act: &Act, outcome: &Outcome) -> bool
    ensures { IsTrue result ↔ OutcomeFits (plain_tables tables.now) act.now outcome.now }
{
    match outcome {
        Outcome::Value(value) => answer_fits(tables, act, value),
        Outcome::Failed(failure) => failure_fits(failure),
    }
}

/// Whether a request fits the program, and what it came to fits the request.
pub fn entry_fits(tables: &[ClassTable], entry: &Entry) -> bool
    ensures { IsTrue result
        ↔ (RequestFits (plain_tables tables.now) entry.now.request
        × OutcomeFits (plain_tables tables.now) entry.now.request.act entry.now.outcome) }
{
    request_fits(tables, &entry.request) && outcome_fits(tables, &entry.request.act, &entry.outcome)
}
