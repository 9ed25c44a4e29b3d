//! The rules of a type that is written in a statement.

ghost use Rattle.py_tree.specs.PlainTypes.{plain_written};
ghost use Rattle.py_tree.specs.ClassRules.{type_fault};
ghost use Rattle.py_tree.specs.Flow as spec;
ghost use Rattle.entity_tables.specs.Answers.{Finds};
ghost use Rattle.entity_tables.specs.Views.{plain_tables};

use entity_tables::Tables;
use entity_tables::written::has_none;
use entity_types::lookup::table_named;
use entity_types::{RuleError, refuse};
use py_tree::{Rule, WrittenKind, WrittenTy};

/// The rules of a type, from the outside in.
#[tactic(auto, using(py_tree::proofs::Views::written_views, py_tree::proofs::Places::places))]
pub fn check_written(tables: &Tables, ty: &WrittenTy) -> Result<(), RuleError>
    ensures { Finds (type_fault (spec.is_class_in (plain_tables tables.now)) (plain_written ty.now)) result }
{
    match &ty.kind {
        WrittenKind::Int | WrittenKind::Bool | WrittenKind::Str | WrittenKind::Nil => Ok(()),
        WrittenKind::List(element) => check_written(tables, element),
        WrittenKind::Optional(inner) => {
            refuse(has_none(inner), Rule::NestedOptional, inner.place)?;
            check_written(tables, inner)
        }
        WrittenKind::Entity(class) => {
            let is_class = table_named(tables.as_slice(), *class).is_some();
            refuse(!is_class, Rule::UnknownType, ty.place)
        }
    }
}
