//! Expressions (Python Language Reference, expressions).

ghost use Rattle.std.specs.Prelude.{◌≡◌, ◌<◌, ◌≤◌, [], ◌∷◌, IsTrue, IfOk, OnOk};
ghost use Rattle.py_tree.specs.PlainExpressions.{plain_expr, plain_exprs, plain_link, plain_links};
ghost use Rattle.py_tree.specs.Reading.{left, lines_left, sees_name};
ghost use Rattle.py_tree.specs.ExpressionGrammar.{IsWhole, IsOr, IsOrs, IsAnd, IsAnds, IsNot, IsCompare, IsSum, IsSums, IsTerm, IsTerms, IsUnary, IsPostfix, IsTails, IsEnclosed, IsArgs, IsMore, IsAtom, IsGroup, IsNamed, joined_or, joined_and, chained};
ghost use Rattle.py_parser.specs.Reads.{Comes};

use crate::input::Reader;
use crate::looking::{addition, atom_start, begins_expr, comparison, multiplication};
use crate::syntax_error::SyntaxError;
use py_tree::{AtomStart, Expr, Exprs, Links, Place, Terminal, nodes};
use sf_list::Sequence;
use std::alloc::{AllocError, Global};

/// A list with one more expression in front.
fn all_of(alloc: Global, first: Expr, more: Exprs) -> Result<Exprs, AllocError>
    ensures { IfOk result (λ all. plain_exprs all ≡ plain_expr first ∷ plain_exprs more) }
{
    let mut all = Sequence::new(alloc);
    all.push(alloc, first)?;
    all.append(alloc, more)?;
    Ok(all)
}

/// The operands of an `or`, of which one alone is itself.
fn join_or(alloc: Global, place: Place, first: Expr, more: Exprs) -> Result<Expr, AllocError>
    ensures { IfOk result (λ made. plain_expr made ≡ joined_or place (plain_expr first) (plain_exprs more)) }
{
    if more.is_empty() {
        return Ok(first);
    }
    Ok(nodes::or_of(place, all_of(alloc, first, more)?))
}

/// The operands of an `and`, of which one alone is itself.
fn join_and(alloc: Global, place: Place, first: Expr, more: Exprs) -> Result<Expr, AllocError>
    ensures { IfOk result (λ made. plain_expr made ≡ joined_and place (plain_expr first) (plain_exprs more)) }
{
    if more.is_empty() {
        return Ok(first);
    }
    Ok(nodes::and_of(place, all_of(alloc, first, more)?))
}

/// A run of operators of one rank; where there is none, its first operand.
fn join_links(alloc: Global, place: Place, first: Expr, links: Links) -> Result<Expr, AllocError>
    ensures { IfOk result (λ made. plain_expr made ≡ chained place (plain_expr first) (plain_links links)) }
{
    if links.is_empty() {
        return Ok(first);
    }
    nodes::chain(alloc, place, first, links)
}

/// An expression, with so many levels left.
#[cycle(expr)]
#[tactic(auto, using(crate::proofs::GrammarRules::whole_rules))]
pub fn expr(alloc: Global, reader: &mut Reader<'_>, levels: u32) -> Result<Expr, SyntaxError>
    ensures comes { Comes plain_expr (IsWhole levels reader.old) result reader.new }
    ensures shorter { OnOk result (left reader.new < left reader.old) }
    ensures same_lines { OnOk result (lines_left reader.new ≡ lines_left reader.old) }
{
    let place = reader.here();
    let yes = or(alloc, reader, levels)?;
    if !reader.sees(Terminal::If) {
        return Ok(yes);
    }
    reader.pass();
    let test = or(alloc, reader, levels)?;
    if !reader.sees(Terminal::Else) {
        return Err(reader.refusal());
    }
    if levels == 0 {
        return Err(reader.excess());
    }
    reader.pass();
    let no = expr(alloc, reader, levels - 1)?;
    Ok(nodes::cond_of(alloc, place, test, yes, no)?)
}

#[cycle(expr)]
#[tactic(auto, using(crate::proofs::GrammarRules::or_rules))]
fn or(alloc: Global, reader: &mut Reader<'_>, levels: u32) -> Result<Expr, SyntaxError>
    ensures comes { Comes plain_expr (IsOr levels reader.old) result reader.new }
    ensures shorter { OnOk result (left reader.new < left reader.old) }
    ensures same_lines { OnOk result (lines_left reader.new ≡ lines_left reader.old) }
{
    let place = reader.here();
    let first = and(alloc, reader, levels)?;
    let more = ors(alloc, reader, levels)?;
    Ok(join_or(alloc, place, first, more)?)
}

#[cycle(expr)]
#[tactic(auto, using(crate::proofs::GrammarRules::ors_rules, crate::proofs::Loops::ors_loop))]
fn ors(alloc: Global, reader: &mut Reader<'_>, levels: u32) -> Result<Exprs, SyntaxError>
    ensures comes { Comes plain_exprs (IsOrs levels reader.old) result reader.new }
    ensures no_longer { OnOk result (left reader.new ≤ left reader.old) }
    ensures same_lines { OnOk result (lines_left reader.new ≡ lines_left reader.old) }
{
    let mut items = Sequence::new(alloc);
    'ors: while reader.sees(Terminal::Or) {
        reader.pass();
        items.push(alloc, and(alloc, reader, levels)?)?;
    }
    Ok(items)
}

#[cycle(expr)]
#[tactic(auto, using(crate::proofs::GrammarRules::and_rules))]
fn and(alloc: Global, reader: &mut Reader<'_>, levels: u32) -> Result<Expr, SyntaxError>
    ensures comes { Comes plain_expr (IsAnd levels reader.old) result reader.new }
    ensures shorter { OnOk result (left reader.new < left reader.old) }
    ensures same_lines { OnOk result (lines_left reader.new ≡ lines_left reader.old) }
{
    let place = reader.here();
    let first = not(alloc, reader, levels)?;
    let more = ands(alloc, reader, levels)?;
    Ok(join_and(alloc, place, first, more)?)
}

#[cycle(expr)]
#[tactic(auto, using(crate::proofs::GrammarRules::ands_rules, crate::proofs::Loops::ands_loop))]
fn ands(alloc: Global, reader: &mut Reader<'_>, levels: u32) -> Result<Exprs, SyntaxError>
    ensures comes { Comes plain_exprs (IsAnds levels reader.old) result reader.new }
    ensures no_longer { OnOk result (left reader.new ≤ left reader.old) }
    ensures same_lines { OnOk result (lines_left reader.new ≡ lines_left reader.old) }
{
    let mut items = Sequence::new(alloc);
    'ands: while reader.sees(Terminal::And) {
        reader.pass();
        items.push(alloc, not(alloc, reader, levels)?)?;
    }
    Ok(items)
}

#[cycle(expr)]
#[tactic(auto, using(crate::proofs::GrammarRules::not_rules))]
fn not(alloc: Global, reader: &mut Reader<'_>, levels: u32) -> Result<Expr, SyntaxError>
    ensures comes { Comes plain_expr (IsNot levels reader.old) result reader.new }
    ensures shorter { OnOk result (left reader.new < left reader.old) }
    ensures same_lines { OnOk result (lines_left reader.new ≡ lines_left reader.old) }
{
    if !reader.sees(Terminal::Not) {
        return compare(alloc, reader, levels);
    }
    if levels == 0 {
        return Err(reader.excess());
    }
    let place = reader.here();
    reader.pass();
    let inner = not(alloc, reader, levels - 1)?;
    Ok(nodes::not_of(alloc, place, inner)?)
}

#[cycle(expr)]
#[tactic(auto, using(crate::proofs::GrammarRules::compare_rules))]
fn compare(alloc: Global, reader: &mut Reader<'_>, levels: u32) -> Result<Expr, SyntaxError>
    ensures comes { Comes plain_expr (IsCompare levels reader.old) result reader.new }
    ensures shorter { OnOk result (left reader.new < left reader.old) }
    ensures same_lines { OnOk result (lines_left reader.new ≡ lines_left reader.old) }
{
    let place = reader.here();
    let left = sum(alloc, reader, levels)?;
    if let Some(op) = comparison(reader) {
        let op_place = reader.here();
        reader.pass();
        let right = sum(alloc, reader, levels)?;
        return Ok(nodes::comparison_of(alloc, place, op, op_place, left, right)?);
    }
    if !reader.sees(Terminal::Is) {
        return Ok(left);
    }
    reader.pass();
    let is_none = !reader.sees(Terminal::Not);
    if !is_none {
        reader.pass();
    }
    if !reader.sees(Terminal::None) {
        return Err(reader.refusal());
    }
    reader.pass();
    Ok(nodes::is_none_of(alloc, place, left, is_none)?)
}

#[cycle(expr)]
#[tactic(auto, using(crate::proofs::GrammarRules::sum_rules))]
fn sum(alloc: Global, reader: &mut Reader<'_>, levels: u32) -> Result<Expr, SyntaxError>
    ensures comes { Comes plain_expr (IsSum levels reader.old) result reader.new }
    ensures shorter { OnOk result (left reader.new < left reader.old) }
    ensures same_lines { OnOk result (lines_left reader.new ≡ lines_left reader.old) }
{
    let place = reader.here();
    let first = term(alloc, reader, levels)?;
    let links = sums(alloc, reader, levels)?;
    Ok(join_links(alloc, place, first, links)?)
}

#[cycle(expr)]
#[tactic(auto, using(crate::proofs::GrammarRules::sums_rules, crate::proofs::Loops::sums_loop))]
fn sums(alloc: Global, reader: &mut Reader<'_>, levels: u32) -> Result<Links, SyntaxError>
    ensures comes { Comes plain_links (IsSums levels reader.old) result reader.new }
    ensures no_longer { OnOk result (left reader.new ≤ left reader.old) }
    ensures same_lines { OnOk result (lines_left reader.new ≡ lines_left reader.old) }
{
    let mut items = Sequence::new(alloc);
    'sums: while let Some(op) = addition(reader) {
        let place = reader.here();
        reader.pass();
        let right = term(alloc, reader, levels)?;
        items.push(alloc, nodes::link_of(op, place, right))?;
    }
    Ok(items)
}

#[cycle(expr)]
#[tactic(auto, using(crate::proofs::GrammarRules::term_rules))]
fn term(alloc: Global, reader: &mut Reader<'_>, levels: u32) -> Result<Expr, SyntaxError>
    ensures comes { Comes plain_expr (IsTerm levels reader.old) result reader.new }
    ensures shorter { OnOk result (left reader.new < left reader.old) }
    ensures same_lines { OnOk result (lines_left reader.new ≡ lines_left reader.old) }
{
    let place = reader.here();
    let first = unary(alloc, reader, levels)?;
    let links = terms(alloc, reader, levels)?;
    Ok(join_links(alloc, place, first, links)?)
}

#[cycle(expr)]
#[tactic(auto, using(crate::proofs::GrammarRules::terms_rules, crate::proofs::Loops::terms_loop))]
fn terms(alloc: Global, reader: &mut Reader<'_>, levels: u32) -> Result<Links, SyntaxError>
    ensures comes { Comes plain_links (IsTerms levels reader.old) result reader.new }
    ensures no_longer { OnOk result (left reader.new ≤ left reader.old) }
    ensures same_lines { OnOk result (lines_left reader.new ≡ lines_left reader.old) }
{
    let mut items = Sequence::new(alloc);
    'terms: while let Some(op) = multiplication(reader) {
        let place = reader.here();
        reader.pass();
        let right = unary(alloc, reader, levels)?;
        items.push(alloc, nodes::link_of(op, place, right))?;
    }
    Ok(items)
}

#[cycle(expr)]
#[tactic(auto, using(crate::proofs::GrammarRules::unary_rules))]
fn unary(alloc: Global, reader: &mut Reader<'_>, levels: u32) -> Result<Expr, SyntaxError>
    ensures comes { Comes plain_expr (IsUnary levels reader.old) result reader.new }
    ensures shorter { OnOk result (left reader.new < left reader.old) }
    ensures same_lines { OnOk result (lines_left reader.new ≡ lines_left reader.old) }
{
    let place = reader.here();
    if reader.sees(Terminal::Minus) {
        if levels == 0 {
            return Err(reader.excess());
        }
        reader.pass();
        let inner = unary(alloc, reader, levels - 1)?;
        return Ok(nodes::neg_of(alloc, place, inner)?);
    }
    if !reader.sees(Terminal::Plus) {
        return postfix(alloc, reader, levels);
    }
    if levels == 0 {
        return Err(reader.excess());
    }
    reader.pass();
    let inner = unary(alloc, reader, levels - 1)?;
    Ok(nodes::pos_of(alloc, place, inner)?)
}

#[cycle(expr)]
#[tactic(auto, using(crate::proofs::GrammarRules::postfix_rules))]
fn postfix(alloc: Global, reader: &mut Reader<'_>, levels: u32) -> Result<Expr, SyntaxError>
    ensures comes { Comes plain_expr (IsPostfix levels reader.old) result reader.new }
    ensures shorter { OnOk result (left reader.new < left reader.old) }
    ensures same_lines { OnOk result (lines_left reader.new ≡ lines_left reader.old) }
{
    let place = reader.here();
    let first = atom(alloc, reader, levels)?;
    tails(alloc, reader, levels, place, first)
}

/// What follows an atom that begins at `place`. A dot and an index each take one of the levels.
#[cycle(expr)]
#[tactic(auto, unfolding(py_tree::specs::Reading::placed_name), using(crate::proofs::GrammarRules::tails_rules))]
fn tails(
    alloc: Global,
    reader: &mut Reader<'_>,
    levels: u32,
    place: Place,
    first: Expr,
) -> Result<Expr, SyntaxError>
    ensures comes { Comes plain_expr (IsTails levels place (plain_expr first) reader.old) result reader.new }
    ensures no_longer { OnOk result (left reader.new ≤ left reader.old) }
    ensures same_lines { OnOk result (lines_left reader.new ≡ lines_left reader.old) }
{
    let mut levels = levels;
    let mut whole = first;
    'tails: loop {
        if reader.sees(Terminal::Dot) {
            if levels == 0 {
                return Err(reader.excess());
            }
            levels -= 1;
            reader.pass();
            if !reader.sees_name() {
                return Err(reader.refusal());
            }
            let name = reader.take_name(alloc)?;
            if reader.sees(Terminal::Open) {
                let args = enclosed(alloc, reader, levels, Terminal::Close)?;
                whole = nodes::call_of(alloc, place, whole, name, args)?;
            } else {
                whole = nodes::attribute(alloc, place, whole, name)?;
            }
            continue;
        }
        if !reader.sees(Terminal::OpenBracket) {
            return Ok(whole);
        }
        if levels == 0 {
            return Err(reader.excess());
        }
        levels -= 1;
        reader.pass();
        let index = expr(alloc, reader, levels)?;
        if !reader.sees(Terminal::CloseBracket) {
            return Err(reader.refusal());
        }
        reader.pass();
        whole = nodes::index_of(alloc, place, whole, index)?;
    }
}

/// Arguments from their opening bracket up to the closing one.
#[cycle(expr)]
#[tactic(auto, using(crate::proofs::GrammarRules::enclosed_rules))]
fn enclosed(
    alloc: Global,
    reader: &mut Reader<'_>,
    levels: u32,
    close: Terminal,
) -> Result<Exprs, SyntaxError>
    ensures comes { Comes plain_exprs (IsEnclosed levels close reader.old) result reader.new }
    ensures no_longer { OnOk result (left reader.new ≤ left reader.old) }
    ensures shorter { 0 < left reader.old → OnOk result (left reader.new < left reader.old) }
    ensures same_lines { OnOk result (lines_left reader.new ≡ lines_left reader.old) }
{
    if levels == 0 {
        return Err(reader.excess());
    }
    reader.pass();
    let items = args(alloc, reader, levels - 1)?;
    if !reader.sees(close) {
        return Err(reader.refusal());
    }
    reader.pass();
    Ok(items)
}

#[cycle(expr)]
#[tactic(auto, using(crate::proofs::GrammarRules::args_rules))]
fn args(alloc: Global, reader: &mut Reader<'_>, levels: u32) -> Result<Exprs, SyntaxError>
    ensures comes { Comes plain_exprs (IsArgs levels reader.old) result reader.new }
    ensures no_longer { OnOk result (left reader.new ≤ left reader.old) }
    ensures same_lines { OnOk result (lines_left reader.new ≡ lines_left reader.old) }
{
    if !begins_expr(reader) {
        return Ok(Sequence::new(alloc));
    }
    let first = expr(alloc, reader, levels)?;
    let more = more_args(alloc, reader, levels)?;
    Ok(all_of(alloc, first, more)?)
}

#[cycle(expr)]
#[tactic(auto, using(crate::proofs::GrammarRules::more_rules, crate::proofs::Loops::more_loop))]
fn more_args(alloc: Global, reader: &mut Reader<'_>, levels: u32) -> Result<Exprs, SyntaxError>
    ensures comes { Comes plain_exprs (IsMore levels reader.old) result reader.new }
    ensures no_longer { OnOk result (left reader.new ≤ left reader.old) }
    ensures same_lines { OnOk result (lines_left reader.new ≡ lines_left reader.old) }
{
    let mut items = Sequence::new(alloc);
    'more_args: while reader.sees(Terminal::Comma) {
        reader.pass();
        if !begins_expr(reader) {
            return Ok(items);
        }
        items.push(alloc, expr(alloc, reader, levels)?)?;
    }
    Ok(items)
}

#[cycle(expr)]
#[tactic(auto, using(crate::proofs::GrammarRules::atom_rules))]
fn atom(alloc: Global, reader: &mut Reader<'_>, levels: u32) -> Result<Expr, SyntaxError>
    ensures comes { Comes plain_expr (IsAtom levels reader.old) result reader.new }
    ensures shorter { OnOk result (left reader.new < left reader.old) }
    ensures same_lines { OnOk result (lines_left reader.new ≡ lines_left reader.old) }
{
    let place = reader.here();
    match atom_start(reader) {
        AtomStart::Name => named(alloc, reader, levels),
        AtomStart::Int => {
            let value = reader.int_value();
            reader.pass();
            Ok(nodes::int_of(place, value))
        }
        AtomStart::Str => Ok(nodes::str_of(place, reader.take_text(alloc)?)),
        AtomStart::True => {
            reader.pass();
            Ok(nodes::bool_of(place, true))
        }
        AtomStart::False => {
            reader.pass();
            Ok(nodes::bool_of(place, false))
        }
        AtomStart::Nil => {
            reader.pass();
            Ok(nodes::nil_of(place))
        }
        AtomStart::Group => group(alloc, reader, levels),
        AtomStart::List => {
            let items = enclosed(alloc, reader, levels, Terminal::CloseBracket)?;
            Ok(nodes::list_of(place, items))
        }
        AtomStart::Other => Err(reader.refusal()),
    }
}

/// An expression within brackets.
#[cycle(expr)]
#[tactic(auto, using(crate::proofs::GrammarRules::group_rules))]
fn group(alloc: Global, reader: &mut Reader<'_>, levels: u32) -> Result<Expr, SyntaxError>
    ensures comes { Comes plain_expr (IsGroup levels reader.old) result reader.new }
    ensures shorter { 0 < left reader.old → OnOk result (left reader.new < left reader.old) }
    ensures same_lines { OnOk result (lines_left reader.new ≡ lines_left reader.old) }
{
    if levels == 0 {
        return Err(reader.excess());
    }
    reader.pass();
    let inner = expr(alloc, reader, levels - 1)?;
    if !reader.sees(Terminal::Close) {
        return Err(reader.refusal());
    }
    reader.pass();
    Ok(inner)
}

/// A name, called where a bracket follows.
#[cycle(expr)]
#[tactic(auto, unfolding(py_tree::specs::Reading::placed_name), using(crate::proofs::GrammarRules::named_rules))]
fn named(alloc: Global, reader: &mut Reader<'_>, levels: u32) -> Result<Expr, SyntaxError>
    requires { IsTrue (sees_name reader.old) }
    ensures comes { Comes plain_expr (IsNamed levels reader.old) result reader.new }
    ensures shorter { OnOk result (left reader.new < left reader.old) }
    ensures same_lines { OnOk result (lines_left reader.new ≡ lines_left reader.old) }
{
    let place = reader.here();
    if reader.sees_next(Terminal::Open) {
        let name = reader.take_name(alloc)?;
        let args = enclosed(alloc, reader, levels, Terminal::Close)?;
        return Ok(nodes::apply_of(place, name.name, args));
    }
    if reader.sees(Terminal::SelfWord) {
        reader.pass();
        return Ok(nodes::self_of(place));
    }
    let name = reader.take_name(alloc)?;
    Ok(nodes::var_of(place, name.name))
}
