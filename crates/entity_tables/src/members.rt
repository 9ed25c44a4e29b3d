//! The rules of a member: its name, its parameters, its result type.

ghost use Rattle.std.specs.Prelude.{◌≡◌, map, length};
ghost use Rattle.py_tree.specs.PlainTypes.{plain_written};
ghost use Rattle.py_tree.specs.PlainStatements.{plain_option};
ghost use Rattle.py_tree.specs.PlainProgram.{plain_class, plain_param, plain_method};
ghost use Rattle.py_tree.specs.ClassRules as spec;
ghost use Rattle.entity_tables.specs.Answers.{fault_of};

use crate::fault::{is_full, refuse};
use crate::names::{is_dunder, is_reserved};
use crate::written::{check_annotation, check_optional};
use py_tree::{
    Class, Method, Name, Names, Param, Rule, RuleFault, WrittenKind, WrittenTy, has_class,
    is_called_by_name, is_init,
};

/// Whether one of these members has this name.
#[tactic(auto, unfolding(py_tree::specs::ClassRules::is_member))]
pub fn has_member(members: &[Method], name: Name) -> bool
    ensures { result ≡ spec.is_member (map plain_method members.now) name.0 }
{
    for member in members {
        if member.name.0 == name.0 {
            return true;
        }
    }
    false
}

/// How many methods that are called by name are among these members.
#[tactic(auto, unfolding(py_tree::specs::ClassRules::methods_of))]
fn count_called(names: &Names, members: &[Method]) -> usize
    ensures { result ≡ length (spec.methods_of names.now (map plain_method members.now)) }
{
    let mut count = 0;
    for member in members {
        if is_called_by_name(names, member.name) {
            count += 1;
        }
    }
    count
}

/// The rules of a member's name, behind the other members.
#[tactic(auto, unfolding(py_tree::specs::ClassRules::member_name_fault))]
pub fn check_member_name(names: &Names, before: &[Method], member: &Method) -> Result<(), RuleFault>
    ensures { fault_of result ≡ spec.member_name_fault names.now (map plain_method before.now) (plain_method member.now) }
{
    let called = is_called_by_name(names, member.name);
    let is_too_many = called && is_full(count_called(names, before));
    refuse(is_too_many, Rule::TooMany, member.place)?;
    let is_reserved = called && is_dunder(names, member.name);
    refuse(is_reserved, Rule::ReservedName, member.place)?;
    refuse(
        has_member(before, member.name),
        Rule::DuplicateMember,
        member.place,
    )
}

#[tactic(auto, unfolding(py_tree::specs::ClassRules::is_param))]
fn has_param(params: &[Param], name: Name) -> bool
    ensures { result ≡ spec.is_param (map plain_param params.now) name.0 }
{
    for param in params {
        if param.name.0 == name.0 {
            return true;
        }
    }
    false
}

/// The rules of a parameter, behind the other parameters.
#[tactic(auto, unfolding(py_tree::specs::ClassRules::param_fault))]
fn check_param(classes: &[Class], before: &[Param], param: &Param) -> Result<(), RuleFault>
    ensures { fault_of result ≡ spec.param_fault (map plain_class classes.now) (map plain_param before.now) (plain_param param.now) }
{
    refuse(is_full(before.len()), Rule::TooMany, param.place)?;
    let is_taken = is_reserved(param.name) || has_class(classes, param.name);
    refuse(is_taken, Rule::ReservedName, param.place)?;
    refuse(
        has_param(before, param.name),
        Rule::DuplicateMember,
        param.place,
    )?;
    check_annotation(classes, param.place, &param.ty)
}

/// The rules of a member's parameters.
#[tactic(auto, using(crate::proofs::Lists::first_laws))]
pub fn check_params(classes: &[Class], params: &[Param]) -> Result<(), RuleFault>
    ensures { fault_of result ≡ spec.first_in (spec.param_fault (map plain_class classes.now)) (map plain_param params.now) }
{
    for i in 0..params.len() {
        check_param(classes, &params[..i], &params[i])?;
    }
    Ok(())
}

#[tactic(auto, using(py_tree::proofs::Views::written_views))]
fn is_more_than_none(ty: &WrittenTy) -> bool
    ensures { result ≡ spec.is_more_than_none (plain_written ty.now) }
{
    match ty.kind {
        WrittenKind::Nil => false,
        WrittenKind::Int
        | WrittenKind::Bool
        | WrittenKind::Str
        | WrittenKind::List(_)
        | WrittenKind::Optional(_)
        | WrittenKind::Entity(_) => true,
    }
}

fn gives_more(result_ty: &Option<WrittenTy>) -> bool
    ensures { result ≡ spec.gives_more (plain_option plain_written result_ty.now) }
{
    match result_ty {
        None => false,
        Some(ty) => is_more_than_none(ty),
    }
}

/// The rules of a member's result type, which `__init__` and `__key__` may leave out.
#[tactic(auto, unfolding(py_tree::specs::ClassRules::result_fault))]
pub fn check_result(names: &Names, classes: &[Class], member: &Method) -> Result<(), RuleFault>
    ensures { fault_of result ≡ spec.result_fault names.now (map plain_class classes.now) (plain_method member.now) }
{
    if is_called_by_name(names, member.name) {
        return check_annotation(classes, member.place, &member.result);
    }
    check_optional(classes, &member.result)?;
    let is_wrong = is_init(names, member.name) && gives_more(&member.result);
    refuse(is_wrong, Rule::InitForm, member.place)
}
