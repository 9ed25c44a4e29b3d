//! The program of a text that is accepted.

ghost use Rattle.program_text.specs.Readings.{Judges, Reads};

use crate::fault::ProgramError;
use entity_tables::{Tables, tables};
use flow_types::check_program;
use py_lexer::lex;
use py_parser::{Parsed, parse};
use py_tree::Checked;
use std::alloc::Global;

/// An accepted program, and the tables of its classes.
#[derive(Drop)]
pub struct Accepted {
    pub program: Checked,
    pub tables: Tables,
}

/// The tables of a program that keeps every rule: first those on classes, then those on types and statements.
fn judge(alloc: Global, parsed: &Parsed) -> Result<Tables, ProgramError>
    ensures { Judges parsed.now result }
{
    let tables = tables(alloc, &parsed.program, &parsed.names)?;
    check_program(alloc, &tables, &parsed.program, &parsed.names)?;
    Ok(tables)
}

/// The program of a text that is accepted, with its tables; else its first fault.
pub fn accept(alloc: Global, text: &[u8]) -> Result<Accepted, ProgramError>
    ensures { Reads text.now result }
{
    let lines = lex(alloc, text)?;
    let parsed = parse(alloc, &lines, text)?;
    let tables = judge(alloc, &parsed)?;
    let Parsed { program, names } = parsed;
    let program = Checked::new(alloc, program, names)?;
    Ok(Accepted { program, tables })
}
