//! The rules of the names of classes.

ghost use Rattle.std.specs.Prelude.{◌≡◌, map};
ghost use Rattle.py_tree.specs.PlainProgram.{plain_class};
ghost use Rattle.py_tree.specs.ClassRules as spec;
ghost use Rattle.entity_tables.specs.Answers.{fault_of};

use crate::fault::{is_full, refuse};
use crate::names::is_reserved;
use py_tree::{Class, Rule, RuleFault, has_class};

/// The rules of a class's name, behind the other classes.
#[tactic(auto, unfolding(py_tree::specs::ClassRules::class_name_fault))]
fn check_class_name(before: &[Class], class: &Class) -> Result<(), RuleFault>
    ensures { fault_of result ≡ spec.class_name_fault (map plain_class before.now) (plain_class class.now) }
{
    refuse(is_full(before.len()), Rule::TooMany, class.place)?;
    refuse(is_reserved(class.name), Rule::ReservedName, class.place)?;
    refuse(
        has_class(before, class.name),
        Rule::DuplicateClass,
        class.place,
    )
}

/// The rules of the names of all classes.
#[tactic(auto, using(crate::proofs::Lists::first_laws))]
pub fn check_class_names(classes: &[Class]) -> Result<(), RuleFault>
    ensures { fault_of result ≡ spec.first_in spec.class_name_fault (map plain_class classes.now) }
{
    for i in 0..classes.len() {
        check_class_name(&classes[..i], &classes[i])?;
    }
    Ok(())
}
