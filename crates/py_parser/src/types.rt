//! Types as they are written (Python Language Reference, annotations).

ghost use Rattle.std.specs.Prelude.{◌≡◌, ◌<◌, ◌≤◌, OnOk};
ghost use Rattle.py_tree.specs.PlainTypes.{plain_written};
ghost use Rattle.py_tree.specs.PlainStatements.{plain_option};
ghost use Rattle.py_tree.specs.Reading.{left, lines_left};
ghost use Rattle.py_tree.specs.TypeGrammar.{IsType, IsInner, IsAnnotation};
ghost use Rattle.py_parser.specs.Reads.{Comes};

use crate::input::Reader;
use crate::looking::type_start;
use crate::syntax_error::SyntaxError;
use py_tree::{Terminal, TypeStart, WrittenTy, nodes};
use std::alloc::Global;

/// A type, with so many levels left.
#[cycle(ty)]
#[tactic(auto, unfolding(py_tree::specs::Reading::placed_name), using(crate::proofs::GrammarRules::type_rules))]
pub fn ty(alloc: Global, reader: &mut Reader<'_>, levels: u32) -> Result<WrittenTy, SyntaxError>
    ensures comes { Comes plain_written (IsType levels reader.old) result reader.new }
    ensures shorter { OnOk result (left reader.new < left reader.old) }
    ensures same_lines { OnOk result (lines_left reader.new ≡ lines_left reader.old) }
{
    let place = reader.here();
    match type_start(reader) {
        TypeStart::Int => {
            reader.pass();
            Ok(nodes::written_int(place))
        }
        TypeStart::Bool => {
            reader.pass();
            Ok(nodes::written_bool(place))
        }
        TypeStart::Str => {
            reader.pass();
            Ok(nodes::written_str(place))
        }
        TypeStart::Nil => {
            reader.pass();
            Ok(nodes::written_nil(place))
        }
        TypeStart::List => {
            reader.pass();
            let element = inner(alloc, reader, levels)?;
            Ok(nodes::written_list(alloc, place, element)?)
        }
        TypeStart::Optional => {
            reader.pass();
            let inner = inner(alloc, reader, levels)?;
            Ok(nodes::written_optional(alloc, place, inner)?)
        }
        TypeStart::Name => {
            let name = reader.take_name(alloc)?;
            Ok(nodes::written_entity(place, name.name))
        }
        TypeStart::Quoted => {
            if !reader.quotes_name(alloc)? {
                return Err(reader.refusal());
            }
            Ok(nodes::written_entity(place, reader.take_text(alloc)?))
        }
        TypeStart::Other => Err(reader.refusal()),
    }
}

/// The type within brackets.
#[cycle(ty)]
#[tactic(auto, using(crate::proofs::GrammarRules::inner_rules))]
fn inner(alloc: Global, reader: &mut Reader<'_>, levels: u32) -> Result<WrittenTy, SyntaxError>
    ensures comes { Comes plain_written (IsInner levels reader.old) result reader.new }
    ensures no_longer { OnOk result (left reader.new ≤ left reader.old) }
    ensures same_lines { OnOk result (lines_left reader.new ≡ lines_left reader.old) }
{
    if levels == 0 {
        return Err(reader.excess());
    }
    reader.pass();
    let inner = ty(alloc, reader, levels - 1)?;
    if !reader.sees(Terminal::CloseBracket) {
        return Err(reader.refusal());
    }
    reader.pass();
    Ok(inner)
}

/// A type behind its sign, where that comes next.
#[tactic(auto, using(crate::proofs::GrammarRules::annotation_rules))]
pub fn annotation(
    alloc: Global,
    reader: &mut Reader<'_>,
    levels: u32,
    sign: Terminal,
) -> Result<Option<WrittenTy>, SyntaxError>
    ensures comes { Comes (plain_option plain_written) (IsAnnotation levels sign reader.old) result reader.new }
    ensures no_longer { OnOk result (left reader.new ≤ left reader.old) }
    ensures same_lines { OnOk result (lines_left reader.new ≡ lines_left reader.old) }
{
    if !reader.sees(sign) {
        return Ok(None);
    }
    reader.pass();
    Ok(Some(ty(alloc, reader, levels)?))
}
