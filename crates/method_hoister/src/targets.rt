//! What statements assign: how it is read, the type that is wanted of its value, and the statement that stores one.

ghost use Rattle.std.specs.Prelude.{◌≡◌, option_map, IfOk};
ghost use Rattle.py_tree.specs.PlainTypes.{plain_ty};
ghost use Rattle.py_tree.specs.PlainExpressions.{plain_expr};
ghost use Rattle.py_tree.specs.FlowEnvironment.{local_of};
ghost use Rattle.py_tree.specs.Flow as flow;
ghost use Rattle.entity_types.specs.Views.{plain_locals, plain_wanted};
ghost use Rattle.flat_tree.specs.PlainFlat.{plain_flat_stmt};
ghost use Rattle.hoisting.specs.HoistStatements as spec;
ghost use Rattle.hoisting.specs.Views.{context_of};

use entity_types::lookup::field_of;
use flat_tree::FlatStmt;
use flow_types::{Local, Locals};
use hoisting::Setting;
use py_tree::nodes::{attribute, self_of, var_of};
use py_tree::{Expr, Name, Place, Target, Ty};
use sf_list::TryClone;
use std::alloc::{AllocError, Global};

/// A target as it is read.
pub fn read_of(alloc: Global, place: Place, target: Target) -> Result<Expr, AllocError>
    ensures { IfOk result (λ made. plain_expr made ≡ spec.read_of place target) }
{
    match target {
        Target::Local(x) => Ok(var_of(place, x.name)),
        Target::Field(f) => attribute(alloc, place, self_of(place), f),
    }
}

/// A target as the rules read it: the word `self` is no local.
pub fn target_read(alloc: Global, place: Place, target: Target) -> Result<Expr, AllocError>
    ensures { IfOk result (λ made. plain_expr made ≡ flow.target_read place target) }
{
    match target {
        Target::Local(x) => {
            if x.name.0 == 0 {
                return Ok(self_of(x.place));
            }
            Ok(var_of(x.place, x.name))
        }
        Target::Field(f) => attribute(alloc, place, self_of(place), f),
    }
}

/// The type that a name has.
#[tactic(auto, unfolding(py_tree::specs::FlowEnvironment::local_of))]
fn type_before(locals: &[Local], name: Name) -> Option<&Ty>
    ensures { plain_wanted result ≡ option_map (λ l. l.ty) (local_of (plain_locals locals.now) name.0) }
{
    for local in locals {
        if local.name.0 == name.0 {
            return Some(&local.ty);
        }
    }
    None
}

/// A copy of a type that there may be.
fn copy_wanted(alloc: Global, ty: Option<&Ty>) -> Result<Option<Ty>, AllocError>
    ensures { IfOk result (λ made. option_map plain_ty made ≡ plain_wanted ty.entry) }
{
    match ty {
        None => Ok(None),
        Some(ty) => {
            let ty = ty.try_clone(alloc)?;
            Ok(Some(ty))
        }
    }
}

/// The type that is wanted of what a target is given.
#[tactic(auto, unfolding(py_tree::specs::Flow::earlier))]
pub fn target_ty(
    alloc: Global,
    setting: &Setting<'_>,
    locals: &Locals,
    target: Target,
) -> Result<Option<Ty>, AllocError>
    ensures { IfOk result (λ made. option_map plain_ty made ≡ spec.target_ty (context_of setting.now) (plain_locals locals.now) target) }
{
    match target {
        Target::Local(x) => copy_wanted(alloc, type_before(locals.as_slice(), x.name)),
        Target::Field(f) => {
            copy_wanted(
                alloc,
                field_of(setting.tables.as_slice(), setting.class, f.name),
            )
        }
    }
}

/// The statement that gives a target a value.
#[tactic(auto, using(flat_tree::proofs::FlatViews::flat_views))]
pub fn stored(target: Target, value: Expr) -> FlatStmt
    ensures { plain_flat_stmt result ≡ spec.stored target (plain_expr value) }
{
    match target {
        Target::Local(x) => FlatStmt::Set(x.name, value),
        Target::Field(f) => FlatStmt::Put(f.name, value),
    }
}
