//! The locals of a method, as names get values.

ghost use Rattle.std.specs.Prelude.{◌≡◌, map, option_map, OnOk};
ghost use Rattle.py_tree.specs.PlainTypes.{PlainTy, plain_ty};
ghost use Rattle.py_tree.specs.FlowEnvironment.{local_of, has_none as none_in};
ghost use Rattle.py_tree.specs.Flow as spec;
ghost use Rattle.entity_tables.specs.Answers.{Finds};
ghost use Rattle.entity_tables.specs.Views.{plain_tables};
ghost use Rattle.entity_types.specs.Views.{plain_local, plain_locals, plain_wanted};
ghost use Rattle.flow_types.specs.Views.{given_by};
ghost use Rattle.flow_types.specs.Answers.{Locates};

use entity_tables::names::is_reserved;
use entity_tables::{Tables, is_full};
use entity_types::lookup::table_named;
use entity_types::types::{assignable, has_none};
use entity_types::{FlowEnv, Local, Locals, RuleError, refuse};
use py_tree::{Name, PlacedName, Rule, Ty};
use std::alloc::{AllocError, Global};

/// The type that a name has from before.
#[tactic(auto, unfolding(py_tree::specs::FlowEnvironment::local_of))]
pub fn type_before(locals: &[Local], name: Name) -> Option<&Ty>
    ensures { plain_wanted result ≡ option_map (λ l. l.ty) (local_of (plain_locals locals.now) name.0) }
{
    for local in locals {
        if local.name.0 == name.0 {
            return Some(&local.ty);
        }
    }
    None
}

/// The rules of a name that is assigned as a local.
#[tactic(auto, unfolding(py_tree::specs::Flow::local_fault))]
pub fn check_local(tables: &Tables, locals: &[Local], name: PlacedName) -> Result<(), RuleError>
    ensures { Finds (spec.local_fault (plain_tables tables.now) (plain_locals locals.now) name) result }
{
    let is_new = type_before(locals, name.name).is_none();
    refuse(is_new && is_full(locals.len()), Rule::TooMany, name.place)?;
    let is_class = table_named(tables.as_slice(), name.name).is_some();
    refuse(
        is_reserved(name.name) || is_class,
        Rule::ReservedName,
        name.place,
    )
}

/// A value is assigned to a local, where it has this name.
fn give_if_named(local: &mut Local, name: Name, may_be_none: bool)
    ensures { plain_local local.new ≡ given_by name.0 may_be_none (plain_local local.old) }
{
    if local.name.0 == name.0 {
        local.assigned = true;
        local.not_none = !may_be_none;
    }
}

/// A value is assigned to the local of a name.
fn give(locals: &mut Locals, name: Name, may_be_none: bool)
    ensures { plain_locals locals.new ≡ map (given_by name.0 may_be_none) (plain_locals locals.old) }
{
    for i in 0..locals.len() {
        give_if_named(locals.at_mut(i), name, may_be_none);
    }
}

/// A value is assigned to a name, which has a type from before, or else gets the first one.
#[tactic(auto, using(crate::proofs::LocalLaws::name_laws))]
pub fn assign_local(
    alloc: Global,
    locals: &mut Locals,
    name: Name,
    first: Ty,
    may_be_none: bool,
) -> Result<(), AllocError>
    ensures { (ty : PlainTy) → may_be_none ≡ none_in ty → OnOk result
        (plain_locals locals.new ≡ spec.with_local name.0 (plain_ty first) ty (plain_locals locals.old)) }
{
    if type_before(locals.as_slice(), name).is_some() {
        give(locals, name, may_be_none);
        return Ok(());
    }
    locals.push(
        alloc,
        Local {
            name,
            ty: first,
            assigned: true,
            not_none: !may_be_none,
        },
    )
}

/// A name gets a value of this type, to which its type from before is kept.
#[tactic(auto, unfolding(py_tree::specs::Flow::stored, py_tree::specs::Flow::earlier))]
pub fn store(alloc: Global, env: &mut FlowEnv, name: PlacedName, ty: Ty) -> Result<(), RuleError>
    ensures { Locates (spec.stored (plain_locals env.old.locals) name (plain_ty ty)) env.old env.new result }
{
    let before = type_before(env.locals.as_slice(), name.name);
    let keeps = match before {
        None => true,
        Some(before) => assignable(&ty, before),
    };
    refuse(!keeps, Rule::LocalRetyped, name.place)?;
    let may_be_none = has_none(&ty);
    assign_local(alloc, &mut env.locals, name.name, ty, may_be_none)?;
    Ok(())
}
