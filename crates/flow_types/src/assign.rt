//! The rules of assignments, and the locals behind one.

ghost use Rattle.std.specs.Prelude.{◌≡◌, IfOk};
ghost use Rattle.py_tree.specs.PlainTypes.{plain_ty, plain_written, type_of as type_written};
ghost use Rattle.py_tree.specs.PlainExpressions.{plain_expr};
ghost use Rattle.py_tree.specs.PlainStatements.{plain_option};
ghost use Rattle.py_tree.specs.Flow as spec;
ghost use Rattle.entity_types.specs.Answers.{Types};
ghost use Rattle.entity_types.specs.Views.{plain_locals};
ghost use Rattle.flow_types.specs.Views.{seen_at};
ghost use Rattle.flow_types.specs.Answers.{Locates};

use crate::context::Context;
use crate::locals::{assign_local, check_local, store, type_before};
use crate::values::{type_at, value_as};
use crate::written::check_written;
use entity_tables::type_of;
use entity_types::lookup::field_of;
use entity_types::operators::{are_ints, is_plus};
use entity_types::types::{has_none, is_str, right_wanted, same};
use entity_types::{FlowEnv, RuleError, refuse, told};
use py_tree::nodes::{attribute, self_of, var_of};
use py_tree::{BinOp, Expr, Name, Place, PlacedName, Rule, Target, Ty, WrittenTy};
use std::alloc::{AllocError, Global};

/// `x = e`.
#[tactic(auto, unfolding(py_tree::specs::Flow::plainly_assigned, py_tree::specs::Flow::earlier))]
fn assign_plainly(
    alloc: Global,
    context: &Context<'_>,
    env: &mut FlowEnv,
    name: PlacedName,
    value: &Expr,
) -> Result<(), RuleError>
    ensures { Locates (spec.plainly_assigned (seen_at context.now env.old) (plain_locals env.old.locals) name (plain_expr value.now)) env.old env.new result }
{
    let wanted = type_before(env.locals.as_slice(), name.name);
    let ty = type_at(alloc, context, env, wanted, value)?;
    store(alloc, env, name, ty)
}

/// `x: T = e`, where x has no type from before.
#[tactic(auto, unfolding(py_tree::specs::Flow::assigned_as))]
fn assign_first(
    alloc: Global,
    context: &Context<'_>,
    env: &mut FlowEnv,
    name: PlacedName,
    ty: Ty,
    value: &Expr,
) -> Result<(), RuleError>
    ensures { Locates (spec.assigned_as (seen_at context.now env.old) (plain_locals env.old.locals) name (plain_ty ty) (plain_expr value.now) None) env.old
        env.new result }
{
    let given = value_as(alloc, context, env, &ty, value)?;
    let may_be_none = has_none(&given);
    assign_local(alloc, &mut env.locals, name.name, ty, may_be_none)?;
    Ok(())
}

/// `x: T = e`.
#[tactic(auto, unfolding(py_tree::specs::Flow::assigned_as, py_tree::specs::Flow::earlier))]
fn assign_as(
    alloc: Global,
    context: &Context<'_>,
    env: &mut FlowEnv,
    name: PlacedName,
    ty: Ty,
    value: &Expr,
) -> Result<(), RuleError>
    ensures { Locates (spec.assigned_as (seen_at context.now env.old) (plain_locals env.old.locals) name (plain_ty ty) (plain_expr value.now)
        (spec.earlier (plain_locals env.old.locals) name)) env.old env.new result }
{
    match type_before(env.locals.as_slice(), name.name) {
        None => assign_first(alloc, context, env, name, ty, value),
        Some(before) => {
            refuse(!same(&ty, before), Rule::LocalRetyped, name.place)?;
            assign_plainly(alloc, context, env, name, value)
        }
    }
}

#[tactic(auto, unfolding(py_tree::specs::Flow::local_assigned))]
fn assign_to_local(
    alloc: Global,
    context: &Context<'_>,
    env: &mut FlowEnv,
    name: PlacedName,
    ty: &Option<WrittenTy>,
    value: &Expr,
) -> Result<(), RuleError>
    ensures { Locates (spec.local_assigned (seen_at context.now env.old) (plain_locals env.old.locals) name (plain_option plain_written ty.now)
        (plain_expr value.now)) env.old env.new result }
{
    check_local(context.tables, env.locals.as_slice(), name)?;
    match ty {
        None => assign_plainly(alloc, context, env, name, value),
        Some(written) => {
            check_written(context.tables, written)?;
            let ty = type_of(alloc, written)?;
            assign_as(alloc, context, env, name, ty, value)
        }
    }
}

/// Whether a field holds the key.
#[tactic(auto, unfolding(py_tree::specs::Flow::is_key_field))]
fn is_key_field(context: &Context<'_>, env: &FlowEnv, name: Name) -> bool
    ensures { result ≡ spec.is_key_field (seen_at context.now env.now) name.0 }
{
    match context.tables.get(env.class as usize) {
        None => false,
        Some(table) => match table.fields.get(table.key_field as usize) {
            None => false,
            Some(field) => field.name.0 == name.0,
        },
    }
}

/// `self.f = e`, which begins at a place.
#[tactic(auto, unfolding(py_tree::specs::Flow::field_assigned))]
fn check_field(
    alloc: Global,
    context: &Context<'_>,
    env: &FlowEnv,
    place: Place,
    field: PlacedName,
    value: &Expr,
) -> Result<(), RuleError>
    ensures { Types (λ done. plain_locals env.now.locals) (spec.field_assigned (seen_at context.now env.now) (plain_locals env.now.locals) place field
        (plain_expr value.now)) result }
{
    let Some(ty) = field_of(context.tables.as_slice(), env.class, field.name) else {
        return Err(told(Rule::UnknownField, field.place));
    };
    let is_key = is_key_field(context, env, field.name);
    refuse(is_key, Rule::KeyAssigned, place)?;
    value_as(alloc, context, env, ty, value)?;
    Ok(())
}

/// `self.f: T = e`, which only `__init__` has.
#[tactic(auto, unfolding(py_tree::specs::Flow::field_declared))]
fn check_declaration(
    alloc: Global,
    context: &Context<'_>,
    env: &FlowEnv,
    place: Place,
    ty: &WrittenTy,
    value: &Expr,
) -> Result<(), RuleError>
    ensures { Types (λ done. plain_locals env.now.locals) (spec.field_declared (seen_at context.now env.now) (plain_locals env.now.locals) place
        (type_written (plain_written ty.now)) (plain_expr value.now)) result }
{
    refuse(env.method.is_some(), Rule::InitForm, place)?;
    let ty = type_of(alloc, ty)?;
    value_as(alloc, context, env, &ty, value)?;
    Ok(())
}

/// `x = e` or `self.f = e`, with a type or without.
#[tactic(auto, unfolding(py_tree::specs::Flow::assigned))]
pub fn assign(
    alloc: Global,
    context: &Context<'_>,
    env: &mut FlowEnv,
    place: Place,
    target: Target,
    ty: &Option<WrittenTy>,
    value: &Expr,
) -> Result<(), RuleError>
    ensures { Locates (spec.assigned (seen_at context.now env.old) (plain_locals env.old.locals) place target (plain_option plain_written ty.now)
        (plain_expr value.now)) env.old env.new result }
{
    match target {
        Target::Local(name) => assign_to_local(alloc, context, env, name, ty, value),
        Target::Field(field) => match ty {
            None => check_field(alloc, context, env, place, field, value),
            Some(ty) => check_declaration(alloc, context, env, place, ty, value),
        },
    }
}

/// A target as it is read.
fn target_read(alloc: Global, place: Place, target: Target) -> Result<Expr, AllocError>
    ensures { IfOk result (λ made. plain_expr made ≡ spec.target_read place target) }
{
    match target {
        Target::Local(x) => {
            if x.name.0 == 0 {
                return Ok(self_of(x.place));
            }
            Ok(var_of(x.place, x.name))
        }
        Target::Field(f) => attribute(alloc, place, self_of(place), f),
    }
}

/// The rules of `x op e` within `x op= e`, told at the operator: lists aren't joined.
#[tactic(auto, unfolding(py_tree::specs::Flow::augmented))]
fn check_augmented(op: BinOp, place: Place, left: &Ty, right: &Ty) -> Result<(), RuleError>
    ensures { Types (λ done. plain_ty left.now) (spec.augmented op place (plain_ty left.now) (plain_ty right.now)) result }
{
    refuse(has_none(left) || has_none(right), Rule::NoneUse, place)?;
    let fit = are_ints(left, right) || (is_plus(op) && (is_str(left) && is_str(right)));
    refuse(!fit, Rule::Operand, place)
}

fn is_key_target(context: &Context<'_>, env: &FlowEnv, target: Target) -> bool
    ensures { result ≡ spec.is_key_target (seen_at context.now env.now) target }
{
    match target {
        Target::Local(_) => false,
        Target::Field(f) => is_key_field(context, env, f.name),
    }
}

/// The combined value, of this type, is assigned.
#[tactic(auto, unfolding(py_tree::specs::Flow::combined_stored))]
fn store_combined(
    alloc: Global,
    context: &Context<'_>,
    env: &mut FlowEnv,
    target: Target,
    ty: Ty,
) -> Result<(), RuleError>
    ensures { Locates (spec.combined_stored (seen_at context.now env.old) (plain_locals env.old.locals) target (plain_ty ty)) env.old env.new result }
{
    match target {
        Target::Local(name) => {
            check_local(context.tables, env.locals.as_slice(), name)?;
            store(alloc, env, name, ty)
        }
        Target::Field(_) => Ok(()),
    }
}

/// `x op= e`.
#[tactic(auto, unfolding(py_tree::specs::Flow::augmentation))]
pub fn augment(
    alloc: Global,
    context: &Context<'_>,
    env: &mut FlowEnv,
    place: Place,
    target: Target,
    op: BinOp,
    op_place: Place,
    value: &Expr,
) -> Result<(), RuleError>
    ensures { Locates (spec.augmentation (seen_at context.now env.old) (plain_locals env.old.locals) place target op op_place (plain_expr value.now)) env.old
        env.new result }
{
    let read = target_read(alloc, place, target)?;
    let left = type_at(alloc, context, env, None, &read)?;
    let is_key = is_key_target(context, env, target);
    refuse(is_key, Rule::KeyAssigned, place)?;
    let right = type_at(alloc, context, env, right_wanted(op, &left), value)?;
    check_augmented(op, op_place, &left, &right)?;
    store_combined(alloc, context, env, target, left)
}
