//! The rules on statements over classes and programs.

ghost use Rattle.std.specs.Prelude.{◌≡◌, ◌≤◌, None, map, length, slice_get, option_map};
ghost use Rattle.py_tree.specs.PlainProgram.{plain_class, plain_method};
ghost use Rattle.py_tree.specs.ClassRules.{init_of, body_of, methods_of, program_fault};
ghost use Rattle.py_tree.specs.Flow as spec;
ghost use Rattle.entity_tables.specs.Answers.{Finds};
ghost use Rattle.entity_tables.specs.Views.{plain_tables};
ghost use Rattle.flow_types.specs.Views.{method_at};

use crate::methods::{check_init, method_locals};
use entity_tables::{RuleError, Tables};
use py_tree::{Class, Method, Names, find_init, is_called_by_name};
use std::alloc::Global;

/// The method of this number among those that are called by name.
#[tactic(auto, using(crate::proofs::MethodLaws::find_laws))]
fn method_of<'a>(names: &Names, members: &'a [Method], number: u32) -> Option<&'a Method>
    ensures { option_map (λ m. plain_method m.now) result ≡ slice_get (methods_of names.now (map plain_method members.now)) number }
{
    let mut left = number;
    for member in members {
        if is_called_by_name(names, member.name) {
            if left == 0 {
                return Some(member);
            }
            left -= 1;
        }
    }
    None
}

/// The method of this number, in the class of that number.
pub fn method_in<'a>(
    names: &Names,
    classes: &'a [Class],
    class: u32,
    method: u32,
) -> Option<&'a Method>
    ensures { option_map (λ m. plain_method m.now) result ≡ method_at names.now (map plain_class classes.now) class method }
{
    let class = classes.get(class as usize)?;
    method_of(names, class.members.as_slice(), method)
}

/// The rules of the methods of a class, in text order.
#[tactic(auto, using(crate::proofs::MethodLaws::methods_laws))]
fn check_methods(
    alloc: Global,
    tables: &Tables,
    names: &Names,
    class: u32,
    members: &[Method],
) -> Result<(), RuleError>
    requires { length (methods_of names.now (map plain_method members.now)) ≤ 256 }
    ensures { Finds (spec.methods_flow_fault (plain_tables tables.now) class 0 (methods_of names.now (map plain_method members.now))) result }
{
    let mut number = 0;
    for member in members {
        if is_called_by_name(names, member.name) {
            method_locals(alloc, tables, names, class, number, member)?;
            number += 1;
        }
    }
    Ok(())
}

/// The rules of the `__init__` of a class, wherever it stands.
#[tactic(auto, using(crate::proofs::MethodLaws::no_init))]
fn check_init_among(
    alloc: Global,
    tables: &Tables,
    names: &Names,
    class: u32,
    members: &[Method],
) -> Result<(), RuleError>
    ensures { Finds (spec.init_flow_fault (plain_tables tables.now) class (body_of (init_of names.now (map plain_method members.now)))) result }
{
    match find_init(names, members) {
        None => Ok(()),
        Some(init) => check_init(alloc, tables, names, class, init.body.as_slice()),
    }
}

/// The rules of a class: `__init__`, and then the methods.
#[tactic(auto, unfolding(py_tree::specs::Flow::class_flow_fault))]
fn check_class(
    alloc: Global,
    tables: &Tables,
    names: &Names,
    number: u32,
    class: &Class,
) -> Result<(), RuleError>
    requires { length (methods_of names.now (map plain_method class.now.members)) ≤ 256 }
    ensures { Finds (spec.class_flow_fault names.now (plain_tables tables.now) number (plain_class class.now)) result }
{
    let members = class.members.as_slice();
    check_init_among(alloc, tables, names, number, members)?;
    check_methods(alloc, tables, names, number, members)
}

/// The rules of all classes of a program that breaks no class rule.
#[tactic(auto, using(crate::proofs::MethodLaws::classes_laws))]
pub fn check_classes(
    alloc: Global,
    tables: &Tables,
    names: &Names,
    classes: &[Class],
) -> Result<(), RuleError>
    requires { program_fault names.now (map plain_class classes.now) ≡ None }
    ensures { Finds (spec.classes_flow_fault names.now (plain_tables tables.now) 0 (map plain_class classes.now)) result }
{
    let mut number = 0;
    for class in classes {
        check_class(alloc, tables, names, number, class)?;
        number += 1;
    }
    Ok(())
}
