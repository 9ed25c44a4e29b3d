//! Programs: imports and classes.

ghost use Rattle.std.specs.Prelude.{◌≡◌, Ok, length, map, IfOk, OnOk};
ghost use Rattle.py_tree.specs.Bounded.{IsBounded, HasReserved};
ghost use Rattle.py_tree.specs.PlainProgram.{plain_classes, plain_program};
ghost use Rattle.py_tree.specs.Reading.{lines_left};
ghost use Rattle.py_tree.specs.Grammar.{IsMoreNames, IsNames, IsImported, IsLineEnd, IsImportFrom, IsImport, IsItems, IsFile};
ghost use Rattle.py_lexer.specs.Spans.{LinesRise};
ghost use Rattle.py_lexer.specs.Views.{Lexes, plain_line};
ghost use Rattle.py_parser.specs.Reads.{Comes, Passes, Parses};

use crate::classes::class;
use crate::input::Reader;
use crate::looking::{begins_docstring, begins_import, sees_module};
use crate::reserved::reserved_names;
use crate::syntax_error::SyntaxError;
use py_lexer::Lines;
use py_tree::{Classes, Names, Program, Terminal};
use sf_list::Sequence;
use std::alloc::Global;

/// A program, and the table of its names.
#[derive(Drop)]
pub struct Parsed {
    pub program: Program,
    pub names: Names,
}

/// The names behind a first one. Within brackets a last comma may end them.
#[tactic(auto, using(crate::proofs::BlockLoops::more_names_loop))]
fn more_names(reader: &mut Reader<'_>, is_enclosed: bool) -> Result<(), SyntaxError>
    ensures comes { Passes (IsMoreNames is_enclosed reader.old) result reader.new }
    ensures same_lines { OnOk result (lines_left reader.new ≡ lines_left reader.old) }
{
    'more_names: while reader.sees(Terminal::Comma) {
        reader.pass();
        if !reader.sees_name() {
            return if is_enclosed {
                Ok(())
            } else {
                Err(reader.refusal())
            };
        }
        reader.pass();
    }
    Ok(())
}

#[tactic(auto, using(crate::proofs::GrammarRules::names_rules))]
fn names(reader: &mut Reader<'_>, is_enclosed: bool) -> Result<(), SyntaxError>
    ensures comes { Passes (IsNames is_enclosed reader.old) result reader.new }
    ensures same_lines { OnOk result (lines_left reader.new ≡ lines_left reader.old) }
{
    if !reader.sees_name() {
        return Err(reader.refusal());
    }
    reader.pass();
    more_names(reader, is_enclosed)
}

/// What is imported from a module.
#[tactic(auto, using(crate::proofs::GrammarRules::imported_rules))]
fn imported(reader: &mut Reader<'_>) -> Result<(), SyntaxError>
    ensures comes { Passes (IsImported reader.old) result reader.new }
    ensures same_lines { OnOk result (lines_left reader.new ≡ lines_left reader.old) }
{
    if !reader.sees(Terminal::Open) {
        return names(reader, false);
    }
    reader.pass();
    names(reader, true)?;
    if !reader.sees(Terminal::Close) {
        return Err(reader.refusal());
    }
    reader.pass();
    Ok(())
}

/// An import, which leaves no trace.
#[tactic(auto, using(crate::proofs::GrammarRules::import_rules))]
fn import(reader: &mut Reader<'_>) -> Result<(), SyntaxError>
    ensures comes { Passes (IsImport reader.old) result reader.new }
    ensures same_lines { OnOk result (lines_left reader.new ≡ lines_left reader.old) }
{
    if reader.sees(Terminal::From) {
        reader.pass();
        return import_from(reader);
    }
    if !reader.sees(Terminal::Import) {
        return Err(reader.refusal());
    }
    reader.pass();
    if !reader.sees(Terminal::StateflowWord) {
        return Err(reader.refusal());
    }
    reader.pass();
    end_line(reader)
}

/// What follows the word of an import of names.
#[tactic(auto, using(crate::proofs::GrammarRules::import_from_rules))]
fn import_from(reader: &mut Reader<'_>) -> Result<(), SyntaxError>
    ensures comes { Passes (IsImportFrom reader.old) result reader.new }
    ensures same_lines { OnOk result (lines_left reader.new ≡ lines_left reader.old) }
{
    if !sees_module(reader) {
        return Err(reader.refusal());
    }
    reader.pass();
    if !reader.sees(Terminal::Import) {
        return Err(reader.refusal());
    }
    reader.pass();
    imported(reader)?;
    end_line(reader)
}

/// Nothing is left of the line.
#[tactic(auto, using(crate::proofs::GrammarRules::line_end_rules))]
fn end_line(reader: &mut Reader<'_>) -> Result<(), SyntaxError>
    ensures comes { Passes (IsLineEnd reader.old) result reader.new }
    ensures same { reader.new ≡ reader.old }
{
    if !reader.ends() {
        return Err(reader.refusal());
    }
    Ok(())
}

/// The classes of the lines that are left.
#[tactic(auto, using(crate::proofs::BlockLoops::items_loop))]
fn items(alloc: Global, reader: &mut Reader<'_>) -> Result<Classes, SyntaxError>
    ensures { Comes plain_classes (IsItems reader.old) result reader.new }
{
    let mut items = Sequence::new(alloc);
    'items: while reader.has_line() {
        let is_first = reader.is_at(0);
        reader.begin_line();
        if !is_first {
            return Err(reader.refusal());
        }
        if begins_import(reader) {
            import(reader)?;
        } else {
            items.push(alloc, class(alloc, reader)?)?;
        }
    }
    Ok(items)
}

/// The classes of all lines. A string may stand before them.
#[tactic(auto, using(crate::proofs::GrammarRules::file_rules))]
fn file(alloc: Global, reader: &mut Reader<'_>) -> Result<Classes, SyntaxError>
    ensures { Comes plain_classes (IsFile reader.old) result reader.new }
{
    if begins_docstring(reader) {
        reader.begin_line();
        reader.pass();
        if !reader.ends() {
            return Err(reader.refusal());
        }
    }
    items(alloc, reader)
}

/// The program of the logical lines of a text, or the first token that is refused. The program is
/// bounded. The names of the table begin with the reserved ones, and the others follow as they are
/// first read.
pub fn parse(alloc: Global, lines: &Lines, text: &[u8]) -> Result<Parsed, SyntaxError>
    requires lexed { Lexes text.now (Ok lines.now) }
    requires spans { LinesRise text.now 0 lines.now (length text.now) }
    ensures outcome { Parses (map (plain_line text.now) lines.now) result }
    ensures bounded { IfOk result (λ p. IsBounded p.names (plain_program p.program)) }
    ensures reserved { IfOk result (λ p. HasReserved p.names) }
{
    let mut reader = Reader::new(text, lines.as_slice(), reserved_names(alloc)?);
    let classes = file(alloc, &mut reader)?;
    Ok(Parsed {
        program: Program { classes },
        names: reader.into_names(),
    })
}
