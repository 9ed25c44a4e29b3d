//! Rules on types alone.

ghost use Rattle.std.specs.Prelude.{◌≡◌, not, option_map, option_and_then, is_none, IfOk};
ghost use Rattle.py_tree.specs.PlainTypes.{plain_ty, TList};
ghost use Rattle.py_tree.specs.FlowEnvironment as flow;
ghost use Rattle.py_tree.specs.ExpressionTypes as spec;
ghost use Rattle.entity_types.specs.Views.{plain_wanted};

use py_tree::{BinOp, Name, Ty};
use std::alloc::{AllocError, Global};

/// Whether both are the same type.
pub fn same(s: &Ty, t: &Ty) -> bool
    ensures { result ≡ spec.same_ty (plain_ty s.now) (plain_ty t.now) }
{
    s.same(t)
}

/// Whether None belongs to a type.
#[tactic(auto, using(py_tree::proofs::Views::ty_views))]
pub fn has_none(ty: &Ty) -> bool
    ensures { result ≡ flow.has_none (plain_ty ty.now) }
{
    match ty {
        Ty::Nil | Ty::Optional(_) => true,
        Ty::Int | Ty::Bool | Ty::Str | Ty::List(_) | Ty::Entity(_) => false,
    }
}

#[tactic(auto, using(py_tree::proofs::Views::ty_views))]
pub fn is_int(ty: &Ty) -> bool
    ensures { result ≡ spec.is_int (plain_ty ty.now) }
{
    match ty {
        Ty::Int => true,
        Ty::Bool | Ty::Str | Ty::Nil | Ty::List(_) | Ty::Optional(_) | Ty::Entity(_) => false,
    }
}

#[tactic(auto, using(py_tree::proofs::Views::ty_views))]
pub fn is_bool(ty: &Ty) -> bool
    ensures { result ≡ spec.is_bool (plain_ty ty.now) }
{
    match ty {
        Ty::Bool => true,
        Ty::Int | Ty::Str | Ty::Nil | Ty::List(_) | Ty::Optional(_) | Ty::Entity(_) => false,
    }
}

#[tactic(auto, using(py_tree::proofs::Views::ty_views))]
pub fn is_str(ty: &Ty) -> bool
    ensures { result ≡ spec.is_str (plain_ty ty.now) }
{
    match ty {
        Ty::Str => true,
        Ty::Int | Ty::Bool | Ty::Nil | Ty::List(_) | Ty::Optional(_) | Ty::Entity(_) => false,
    }
}

#[tactic(auto, using(py_tree::proofs::Views::ty_views))]
pub fn is_list(ty: &Ty) -> bool
    ensures { result ≡ spec.is_list (plain_ty ty.now) }
{
    match ty {
        Ty::List(_) => true,
        Ty::Int | Ty::Bool | Ty::Str | Ty::Nil | Ty::Optional(_) | Ty::Entity(_) => false,
    }
}

/// What a list type is a list of.
#[tactic(auto, using(py_tree::proofs::Views::ty_views))]
pub fn element_of(ty: &Ty) -> Option<&Ty>
    ensures { plain_wanted result ≡ spec.element_of (plain_ty ty.now) }
{
    match ty {
        Ty::List(element) => Some(element),
        Ty::Int | Ty::Bool | Ty::Str | Ty::Nil | Ty::Optional(_) | Ty::Entity(_) => None,
    }
}

/// The name of the class of an entity type.
#[tactic(auto, using(py_tree::proofs::Views::ty_views))]
pub fn class_of(ty: &Ty) -> Option<Name>
    ensures { option_map (λ name. name.0) result ≡ spec.class_of_ty (plain_ty ty.now) }
{
    match ty {
        Ty::Entity(class) => Some(*class),
        Ty::Int | Ty::Bool | Ty::Str | Ty::Nil | Ty::List(_) | Ty::Optional(_) => None,
    }
}

/// Whether the second is an Optional, and the first is what it holds, or None.
#[tactic(auto, using(py_tree::proofs::Views::ty_views))]
fn is_held(s: &Ty, t: &Ty) -> bool
    ensures { result ≡ spec.is_held (plain_ty s.now) (plain_ty t.now) }
{
    match t {
        Ty::Optional(inner) => same(s, inner) || same(s, &Ty::Nil),
        Ty::Int | Ty::Bool | Ty::Str | Ty::Nil | Ty::List(_) | Ty::Entity(_) => false,
    }
}

/// Whether a value of the first type may stand where the second is asked.
#[tactic(auto, unfolding(py_tree::specs::ExpressionTypes::assignable))]
pub fn assignable(s: &Ty, t: &Ty) -> bool
    ensures { result ≡ spec.assignable (plain_ty s.now) (plain_ty t.now) }
{
    same(s, t) || is_held(s, t)
}

/// What an Optional holds, and else the type itself.
#[tactic(auto, using(py_tree::proofs::Views::ty_views))]
pub fn inside(ty: &Ty) -> &Ty
    ensures { plain_ty result.now ≡ spec.inside (plain_ty ty.now) }
{
    match ty {
        Ty::Optional(inner) => inner,
        Ty::Int | Ty::Bool | Ty::Str | Ty::Nil | Ty::List(_) | Ty::Entity(_) => ty,
    }
}

/// The element type of a wanted list type, or of a wanted Optional of one.
#[tactic(auto, using(py_tree::proofs::TypeLaws::element_inside))]
pub fn element_wanted(wanted: Option<&Ty>) -> Option<&Ty>
    ensures { plain_wanted result ≡ option_and_then spec.element_wanted (plain_wanted wanted.entry) }
{
    match wanted {
        None => None,
        Some(ty) => element_of(inside(ty)),
    }
}

/// What is wanted right of an operator with this type on the left.
#[tactic(auto, using(py_tree::proofs::TypeLaws::as_list_is))]
pub fn right_wanted(op: BinOp, left: &Ty) -> Option<&Ty>
    ensures { plain_wanted result ≡ spec.right_wanted op (plain_ty left.now) }
{
    match op {
        BinOp::Add => { if is_list(left) { Some(left) } else { None } }
        BinOp::Sub | BinOp::Mul | BinOp::FloorDiv | BinOp::Mod => None,
    }
}

/// The type of lists of elements of this type.
#[tactic(auto, using(py_tree::proofs::Views::ty_views))]
pub fn list_of(alloc: Global, element: Ty) -> Result<Ty, AllocError>
    ensures { IfOk result (λ ty. plain_ty ty ≡ TList (plain_ty element)) }
{
    Ok(Ty::List(Box::new(alloc, element)?))
}

/// A type that hasn't None, with None.
#[tactic(auto, using(py_tree::proofs::Views::ty_views))]
fn with_none(alloc: Global, ty: Ty) -> Result<Option<Ty>, AllocError>
    ensures { IfOk result (λ found. option_map plain_ty found ≡ spec.with_none (plain_ty ty)) }
{
    if has_none(&ty) {
        return Ok(None);
    }
    Ok(Some(Ty::Optional(Box::new(alloc, ty)?)))
}

/// Of None and another type.
#[tactic(auto, using(py_tree::proofs::Views::ty_views, py_tree::proofs::TypeLaws::join_none_is))]
fn join_none(alloc: Global, s: Ty, t: Ty) -> Result<Option<Ty>, AllocError>
    ensures { IfOk result (λ found. option_map plain_ty found ≡ spec.join_none (plain_ty s) (plain_ty t)) }
{
    if same(&s, &Ty::Nil) {
        return with_none(alloc, t);
    }
    if same(&t, &Ty::Nil) {
        return with_none(alloc, s);
    }
    Ok(None)
}

/// The one type of two parts that take turns.
#[tactic(auto, unfolding(py_tree::specs::ExpressionTypes::join))]
pub fn join(alloc: Global, s: Ty, t: Ty) -> Result<Option<Ty>, AllocError>
    ensures { IfOk result (λ found. option_map plain_ty found ≡ spec.join (plain_ty s) (plain_ty t)) }
{
    if same(&s, &t) {
        return Ok(Some(s));
    }
    if is_held(&s, &t) {
        return Ok(Some(t));
    }
    if is_held(&t, &s) {
        return Ok(Some(s));
    }
    join_none(alloc, s, t)
}

/// Whether two parts that take turns have one type.
#[tactic(auto, using(py_tree::proofs::Views::ty_views, py_tree::proofs::TypeLaws::has_join_is))]
pub fn has_join(s: &Ty, t: &Ty) -> bool
    ensures { result ≡ not (is_none (spec.join (plain_ty s.now) (plain_ty t.now))) }
{
    same(s, t)
        || is_held(s, t)
        || is_held(t, s)
        || (same(s, &Ty::Nil) && !has_none(t))
        || (same(t, &Ty::Nil) && !has_none(s))
}
