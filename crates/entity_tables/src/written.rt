//! The rules of written types.

ghost use Rattle.std.specs.Prelude.{◌≡◌, map};
ghost use Rattle.py_tree.specs.PlainTypes.{plain_written};
ghost use Rattle.py_tree.specs.PlainStatements.{plain_option};
ghost use Rattle.py_tree.specs.PlainProgram.{plain_class};
ghost use Rattle.py_tree.specs.ClassRules as spec;
ghost use Rattle.entity_tables.specs.Answers.{fault_of};

use crate::fault::refuse;
use py_tree::{Class, Place, Rule, RuleFault, WrittenKind, WrittenTy, has_class};

/// Whether None belongs to a type.
#[tactic(auto, using(py_tree::proofs::Views::written_views))]
pub fn has_none(ty: &WrittenTy) -> bool
    ensures { result ≡ spec.has_none (plain_written ty.now) }
{
    match ty.kind {
        WrittenKind::Nil | WrittenKind::Optional(_) => true,
        WrittenKind::Int
        | WrittenKind::Bool
        | WrittenKind::Str
        | WrittenKind::List(_)
        | WrittenKind::Entity(_) => false,
    }
}

/// The rules of a type, from the outside in.
#[tactic(auto, using(py_tree::proofs::Views::written_views, py_tree::proofs::Places::places))]
pub fn check_written(classes: &[Class], ty: &WrittenTy) -> Result<(), RuleFault>
    ensures { fault_of result ≡ spec.written_fault (map plain_class classes.now) (plain_written ty.now) }
{
    match &ty.kind {
        WrittenKind::Int | WrittenKind::Bool | WrittenKind::Str | WrittenKind::Nil => Ok(()),
        WrittenKind::List(element) => check_written(classes, element),
        WrittenKind::Optional(inner) => {
            refuse(has_none(inner), Rule::NestedOptional, inner.place)?;
            check_written(classes, inner)
        }
        WrittenKind::Entity(class) => {
            refuse(!has_class(classes, *class), Rule::UnknownType, ty.place)
        }
    }
}

/// The rules of a type that may be left out.
pub fn check_optional(classes: &[Class], ty: &Option<WrittenTy>) -> Result<(), RuleFault>
    ensures { fault_of result ≡ spec.optional_fault (map plain_class classes.now) (plain_option plain_written ty.now) }
{
    match ty {
        None => Ok(()),
        Some(ty) => check_written(classes, ty),
    }
}

/// The rules of a type that belongs to the name at a place.
pub fn check_annotation(
    classes: &[Class],
    place: Place,
    ty: &Option<WrittenTy>,
) -> Result<(), RuleFault>
    ensures { fault_of result ≡ spec.annotation_fault (map plain_class classes.now) place (plain_option plain_written ty.now) }
{
    match ty {
        None => Err(RuleFault {
            rule: Rule::MissingAnnotation,
            place,
        }),
        Some(ty) => check_written(classes, ty),
    }
}
