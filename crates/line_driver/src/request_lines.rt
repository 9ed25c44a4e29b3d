//! Request lines from the short form in which rows tell them, and requests from lines.

ghost use Rattle.std.specs.Prelude.{IfOk};
ghost use Rattle.request_history.specs.SoundHistory.{RequestFits};
ghost use Rattle.engine.specs.EngineViews.{tables_of};

use engine::Engine;
use request_json::{LineError, read_line};
use sf_value::Request;
use std::alloc::{AllocError, Global};

/// The first word of a text, and the rest.
fn word(text: &str) -> (&str, &str) {
    text.split_once(' ').unwrap_or((text, ""))
}

/// The line of a creation: an id, a class, and what the class takes.
fn creation_line(alloc: Global, told: &str) -> Result<String, AllocError> {
    let (id, rest) = word(told);
    let (class, args) = word(rest);
    format!(in alloc; "{{\"id\":\"{id}\",\"class\":\"{class}\",\"new\":{args}}}")
}

/// The line of a call: an id, a class, a key, a method, and its arguments.
fn call_line(alloc: Global, told: &str) -> Result<String, AllocError> {
    let (id, rest) = word(told);
    let (class, rest) = word(rest);
    let (key, rest) = word(rest);
    let (method, args) = word(rest);
    format!(in alloc;
        "{{\"id\":\"{id}\",\"class\":\"{class}\",\"key\":\"{key}\",\"method\":\"{method}\",\"args\":{args}}}"
    )
}

/// The line that a row tells: a creation behind `new`, a call behind `call`, and else itself.
pub fn line_of(alloc: Global, told: &str) -> Result<String, AllocError> {
    match word(told) {
        ("new", rest) => creation_line(alloc, rest),
        ("call", rest) => call_line(alloc, rest),
        _ => String::from_str(alloc, told),
    }
}

/// The request that a line is. It fits the program of the engine.
pub fn request_of(alloc: Global, engine: &Engine, line: &str) -> Result<Request, LineError>
    ensures { IfOk result (RequestFits (tables_of engine.now)) }
{
    read_line(alloc, engine.compiled().program(), line.as_bytes())
}
