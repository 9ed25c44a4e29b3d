//! What is called, and what is looked into, before the arguments and the index are typed.

ghost use Rattle.std.specs.Prelude.{not, Ok};
ghost use Rattle.py_tree.specs.PlainTypes.{plain_ty};
ghost use Rattle.py_tree.specs.PlainExpressions.{plain_expr};
ghost use Rattle.py_tree.specs.ExpressionTypes as spec;
ghost use Rattle.py_tree.specs.ClassRules.{is_self as the_word_self};
ghost use Rattle.py_tree.specs.declared.rule.Rule.TheVariants.{RemoteField, UnknownField};
ghost use Rattle.entity_tables.specs.Views.{plain_sig, plain_tables};
ghost use Rattle.entity_types.specs.Answers.{Types};
ghost use Rattle.entity_types.specs.Calls.{called as the_called, indexed as the_indexed};

use crate::fault::{refuse, told};
use crate::lookup::{field_of, method_of};
use crate::types::{class_of, element_of, has_none};
use entity_tables::{ClassTable, RuleError, Sig};
use py_tree::{Expr, Place, PlacedName, Rule, Ty, is_self};
use sf_list::TryClone;
use std::alloc::Global;

/// The type of a field of `self`, in the class of this number.
pub fn attribute(
    alloc: Global,
    tables: &[ClassTable],
    class: u32,
    on: &Expr,
    name: PlacedName,
) -> Result<Ty, RuleError>
    ensures { Types plain_ty (spec.refuse_if (not (the_word_self (plain_expr on.now))) RemoteField name.place
        (spec.needs (spec.field_of (plain_tables tables.now) class name.name.0) UnknownField name.place (λ t. Ok t))) result }
{
    refuse(!is_self(on), Rule::RemoteField, name.place)?;
    match field_of(tables, class, name.name) {
        None => Err(told(Rule::UnknownField, name.place)),
        Some(ty) => Ok(ty.try_clone(alloc)?),
    }
}

/// The method of this name that a receiver of this type has, for this number of arguments.
#[tactic(auto, unfolding(crate::specs::Calls::called))]
pub fn called<'a>(
    tables: &'a [ClassTable],
    place: Place,
    receiver: &Ty,
    name: PlacedName,
    count: usize,
) -> Result<&'a Sig, RuleError>
    ensures { Types (λ m. plain_sig m.now) (the_called (plain_tables tables.now) place (plain_ty receiver.now) name.name.0 name.place count) result }
{
    refuse(has_none(receiver), Rule::NoneUse, place)?;
    let Some(class) = class_of(receiver) else {
        return Err(told(Rule::Operand, place));
    };
    let Some(method) = method_of(tables, class, name.name) else {
        return Err(told(Rule::UnknownMethod, name.place));
    };
    refuse(count != method.params.len(), Rule::ArgCount, name.place)?;
    Ok(method)
}

/// The element type of what is indexed.
#[tactic(auto, unfolding(crate::specs::Calls::indexed))]
pub fn indexed(place: Place, ty: &Ty) -> Result<&Ty, RuleError>
    ensures { Types (λ t. plain_ty t.now) (the_indexed place (plain_ty ty.now)) result }
{
    refuse(has_none(ty), Rule::NoneUse, place)?;
    match element_of(ty) {
        None => Err(told(Rule::Operand, place)),
        Some(element) => Ok(element),
    }
}
