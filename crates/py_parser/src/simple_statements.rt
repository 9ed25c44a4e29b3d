//! Simple statements (Python Language Reference, simple statements).

ghost use Rattle.std.specs.Prelude.{◌≡◌, ◌<◌, ◌≤◌, ◌∷◌, IsTrue, IfOk, OnOk};
ghost use Rattle.py_tree.specs.PlainExpressions.{plain_expr};
ghost use Rattle.py_tree.specs.PlainStatements.{plain_stmt, plain_stmts, plain_option};
ghost use Rattle.py_tree.specs.Reading.{left, lines_left, next, sees_name};
ghost use Rattle.py_tree.specs.StatementGrammar.{IsSimple, IsValue, IsMessage, IsDetail, IsAssigned, IsSimples, IsMoreSimples, IsLine, IsRaise, IsField};
ghost use Rattle.py_parser.specs.Reads.{Comes};

use crate::expressions::expr;
use crate::input::Reader;
use crate::looking::{augmentation, begins_expr, failure_kind, simple_start};
use crate::syntax_error::SyntaxError;
use crate::types::ty;
use py_tree::{Expr, Place, SimpleStart, Stmt, Stmts, Target, Terminal, nodes};
use sf_list::Sequence;
use std::alloc::{AllocError, Global};

/// An expression, where one can begin with the next token.
#[tactic(auto, using(crate::proofs::GrammarRules::value_rules))]
fn value(alloc: Global, reader: &mut Reader<'_>, levels: u32) -> Result<Option<Expr>, SyntaxError>
    ensures comes { Comes (plain_option plain_expr) (IsValue levels reader.old) result reader.new }
    ensures no_longer { OnOk result (left reader.new ≤ left reader.old) }
    ensures same_lines { OnOk result (lines_left reader.new ≡ lines_left reader.old) }
{
    if !begins_expr(reader) {
        return Ok(None);
    }
    Ok(Some(expr(alloc, reader, levels)?))
}

/// The message of a `raise` within its brackets.
#[tactic(auto, using(crate::proofs::GrammarRules::message_rules))]
fn message(alloc: Global, reader: &mut Reader<'_>, levels: u32) -> Result<Option<Expr>, SyntaxError>
    ensures comes { Comes (plain_option plain_expr) (IsMessage levels reader.old) result reader.new }
    ensures no_longer { OnOk result (left reader.new ≤ left reader.old) }
    ensures same_lines { OnOk result (lines_left reader.new ≡ lines_left reader.old) }
{
    if !reader.sees(Terminal::Open) {
        return Ok(None);
    }
    if levels == 0 {
        return Err(reader.excess());
    }
    reader.pass();
    let message = value(alloc, reader, levels - 1)?;
    if !reader.sees(Terminal::Close) {
        return Err(reader.refusal());
    }
    reader.pass();
    Ok(message)
}

/// The message of an `assert` behind its comma.
#[tactic(auto, using(crate::proofs::GrammarRules::detail_rules))]
fn detail(alloc: Global, reader: &mut Reader<'_>, levels: u32) -> Result<Option<Expr>, SyntaxError>
    ensures comes { Comes (plain_option plain_expr) (IsDetail levels reader.old) result reader.new }
    ensures no_longer { OnOk result (left reader.new ≤ left reader.old) }
    ensures same_lines { OnOk result (lines_left reader.new ≡ lines_left reader.old) }
{
    if !reader.sees(Terminal::Comma) {
        return Ok(None);
    }
    reader.pass();
    Ok(Some(expr(alloc, reader, levels)?))
}

/// What follows the target of a statement that begins at `place`.
#[tactic(auto, using(crate::proofs::GrammarRules::assigned_rules))]
fn assigned(
    alloc: Global,
    reader: &mut Reader<'_>,
    levels: u32,
    place: Place,
    target: Target,
) -> Result<Stmt, SyntaxError>
    ensures comes { Comes plain_stmt (IsAssigned levels place target reader.old) result reader.new }
    ensures no_longer { OnOk result (left reader.new ≤ left reader.old) }
    ensures same_lines { OnOk result (lines_left reader.new ≡ lines_left reader.old) }
{
    if reader.sees(Terminal::Colon) {
        reader.pass();
        let annotation = ty(alloc, reader, levels)?;
        if !reader.sees(Terminal::Assign) {
            return Err(reader.refusal());
        }
        reader.pass();
        let value = expr(alloc, reader, levels)?;
        return Ok(nodes::assignment(place, target, Some(annotation), value));
    }
    if reader.sees(Terminal::Assign) {
        reader.pass();
        let value = expr(alloc, reader, levels)?;
        return Ok(nodes::assignment(place, target, None, value));
    }
    let Some(op) = augmentation(reader) else {
        return Err(reader.refusal());
    };
    let op_place = reader.here();
    reader.pass();
    let value = expr(alloc, reader, levels)?;
    Ok(nodes::augment_of(place, target, op, op_place, value))
}

/// A simple statement, with so many levels left.
#[tactic(auto, using(crate::proofs::GrammarRules::simple_rules))]
fn simple(alloc: Global, reader: &mut Reader<'_>, levels: u32) -> Result<Stmt, SyntaxError>
    ensures comes { Comes plain_stmt (IsSimple levels reader.old) result reader.new }
    ensures shorter { OnOk result (left reader.new < left reader.old) }
    ensures same_lines { OnOk result (lines_left reader.new ≡ lines_left reader.old) }
{
    let place = reader.here();
    match simple_start(reader) {
        SimpleStart::Pass => {
            reader.pass();
            Ok(nodes::pass_of(place))
        }
        SimpleStart::Break => {
            reader.pass();
            Ok(nodes::break_of(place))
        }
        SimpleStart::Continue => {
            reader.pass();
            Ok(nodes::continue_of(place))
        }
        SimpleStart::Return => {
            reader.pass();
            Ok(nodes::return_of(place, value(alloc, reader, levels)?))
        }
        SimpleStart::Raise => raise(alloc, reader, levels),
        SimpleStart::Assert => {
            reader.pass();
            let test = expr(alloc, reader, levels)?;
            Ok(nodes::assert_of(place, test, detail(alloc, reader, levels)?))
        }
        SimpleStart::Local => {
            let name = reader.take_name(alloc)?;
            assigned(alloc, reader, levels, place, Target::Local(name))
        }
        SimpleStart::Field => field(alloc, reader, levels),
        SimpleStart::Other => Ok(nodes::do_of(place, expr(alloc, reader, levels)?)),
    }
}

/// A `raise`.
#[tactic(auto, using(crate::proofs::GrammarRules::raise_rules))]
fn raise(alloc: Global, reader: &mut Reader<'_>, levels: u32) -> Result<Stmt, SyntaxError>
    ensures comes { Comes plain_stmt (IsRaise levels reader.old) result reader.new }
    ensures no_longer { OnOk result (left reader.new ≤ left reader.old) }
    ensures shorter { 0 < left reader.old → OnOk result (left reader.new < left reader.old) }
    ensures same_lines { OnOk result (lines_left reader.new ≡ lines_left reader.old) }
{
    let place = reader.here();
    reader.pass();
    let Some(kind) = failure_kind(reader) else {
        return Err(reader.refusal());
    };
    reader.pass();
    Ok(nodes::raise_of(place, kind, message(alloc, reader, levels)?))
}

/// A field that is assigned. Its dot opens a level that ends with the target.
#[tactic(auto, using(crate::proofs::GrammarRules::field_rules))]
fn field(alloc: Global, reader: &mut Reader<'_>, levels: u32) -> Result<Stmt, SyntaxError>
    requires { IsTrue (sees_name (next (next reader.old))) }
    ensures comes { Comes plain_stmt (IsField levels reader.old) result reader.new }
    ensures shorter { OnOk result (left reader.new < left reader.old) }
    ensures same_lines { OnOk result (lines_left reader.new ≡ lines_left reader.old) }
{
    let place = reader.here();
    reader.pass();
    if levels == 0 {
        return Err(reader.excess());
    }
    reader.pass();
    let name = reader.take_name(alloc)?;
    assigned(alloc, reader, levels, place, Target::Field(name))
}

/// A list with one more statement in front.
fn all_of(alloc: Global, first: Stmt, more: Stmts) -> Result<Stmts, AllocError>
    ensures { IfOk result (λ all. plain_stmts all ≡ plain_stmt first ∷ plain_stmts more) }
{
    let mut all = Sequence::new(alloc);
    all.push(alloc, first)?;
    all.append(alloc, more)?;
    Ok(all)
}

/// The simple statements of a line.
#[tactic(auto, using(crate::proofs::GrammarRules::simples_rules))]
fn simples(alloc: Global, reader: &mut Reader<'_>, levels: u32) -> Result<Stmts, SyntaxError>
    ensures comes { Comes plain_stmts (IsSimples levels reader.old) result reader.new }
    ensures same_lines { OnOk result (lines_left reader.new ≡ lines_left reader.old) }
{
    let first = simple(alloc, reader, levels)?;
    let more = more_simples(alloc, reader, levels)?;
    Ok(all_of(alloc, first, more)?)
}

#[tactic(auto, using(crate::proofs::BlockLoops::more_simples_loop))]
fn more_simples(alloc: Global, reader: &mut Reader<'_>, levels: u32) -> Result<Stmts, SyntaxError>
    ensures comes { Comes plain_stmts (IsMoreSimples levels reader.old) result reader.new }
    ensures same_lines { OnOk result (lines_left reader.new ≡ lines_left reader.old) }
{
    let mut items = Sequence::new(alloc);
    'more_simples: while reader.sees(Terminal::Semicolon) {
        reader.pass();
        if reader.ends() {
            return Ok(items);
        }
        items.push(alloc, simple(alloc, reader, levels)?)?;
    }
    Ok(items)
}

/// Simple statements up to the line's end.
#[tactic(auto, using(crate::proofs::GrammarRules::line_rules))]
pub fn line(alloc: Global, reader: &mut Reader<'_>, levels: u32) -> Result<Stmts, SyntaxError>
    ensures comes { Comes plain_stmts (IsLine levels reader.old) result reader.new }
    ensures same_lines { OnOk result (lines_left reader.new ≡ lines_left reader.old) }
{
    let items = simples(alloc, reader, levels)?;
    if !reader.ends() {
        return Err(reader.refusal());
    }
    Ok(items)
}
