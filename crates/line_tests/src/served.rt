//! Programs from texts that keep every rule, and requests from lines.

use program_text::accept;
use py_tree::Checked;
use request_json::read_line;
use sf_value::{Outcome, Request};
use source_meaning::Local;
use std::alloc::Global;
use std::test::Fail;

/// The program of a text that is accepted.
pub fn accepted(alloc: Global, text: &str) -> Result<Checked, Fail> {
    match accept(alloc, text.as_bytes()) {
        Ok(accepted) => Ok(accepted.program),
        Err(_) => Err(Fail::from("the text is no accepted program")),
    }
}

/// The request that a line is.
pub fn request_of(alloc: Global, program: &Checked, line: &str) -> Result<Request, Fail> {
    match read_line(alloc, program, line.as_bytes()) {
        Ok(request) => Ok(request),
        Err(_) => Err(Fail::from("the line is no request")),
    }
}

/// What the request of a line comes to on a state.
pub fn served(
    alloc: Global,
    program: &Checked,
    state: &mut Local,
    line: &str,
) -> Result<Outcome, Fail> {
    let request = request_of(alloc, program, line)?;
    let outcome = state.run(alloc, program, &request);
    drop(request);
    Ok(outcome?)
}
