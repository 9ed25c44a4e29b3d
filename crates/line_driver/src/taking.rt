//! Requests that an engine is given by the short form of their lines, and that wait then.

ghost use Rattle.line_driver.specs.ReadyEngines.{IsReady};

use crate::request_lines::{line_of, request_of};
use engine::Engine;
use std::alloc::Global;
use std::test::Fail;

/// Gives an engine the request of a line.
fn take(alloc: Global, engine: &mut Engine, told: &str) -> Result<(), Fail>
    requires { IsReady engine.old }
    ensures { IsReady engine.new }
{
    if engine.pending().len() >= 256 {
        return Err(Fail::from("too many requests wait"));
    }
    let line = line_of(alloc, told)?;
    match request_of(alloc, engine, line.as_str()) {
        Ok(request) => {
            let _arrival = engine.arrive(alloc, request)?;
            Ok(())
        }
        Err(_) => Err(Fail::from("the line is no request")),
    }
}

/// Gives an engine the requests of all lines of a text.
pub fn take_lines(alloc: Global, engine: &mut Engine, lines: &str) -> Result<(), Fail>
    requires { IsReady engine.old }
    ensures { IsReady engine.new }
{
    for line in lines.lines() {
        take(alloc, engine, line)?;
    }
    Ok(())
}
