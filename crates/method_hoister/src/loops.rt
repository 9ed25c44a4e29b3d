//! A `for` over a list or a range as a `while` over temporaries.

ghost use Rattle.std.specs.Prelude.{◌≡◌, ◌+◌, ◌++◌, is_some, map, IfOk};
ghost use Rattle.py_tree.specs.PlainTypes.{plain_ty};
ghost use Rattle.py_tree.specs.PlainExpressions.{plain_expr};
ghost use Rattle.py_tree.specs.PlainStatements.{plain_stmts, stmts_of};
ghost use Rattle.py_tree.specs.FlowEnvironment.{local_of};
ghost use Rattle.py_tree.specs.Reachability.{assigned_in};
ghost use Rattle.py_tree.specs.Flow as flow;
ghost use Rattle.entity_types.specs.Views.{plain_local, plain_locals};
ghost use Rattle.flat_tree.specs.PlainFlat.{plain_flat_stmts, plain_flat_test};
ghost use Rattle.hoisting.specs.Stages.{item_ty as the_item_ty};
ghost use Rattle.hoisting.specs.HoistStatements as spec;
ghost use Rattle.method_hoister.specs.SmallCode as code;

use entity_types::types::{element_of, has_none};
use flat_tree::{FlatStmts, FlatTest};
use flow_types::{FlowEnv, Local, Locals, loop_head};
use hoisting::copy_locals;
use hoisting::parts::with_set;
use py_tree::nodes::{apply_of, chain, comparison_of, index_of, int_of, link_of, list_of, var_of};
use py_tree::{BinOp, Cmp, Expr, Name, Place, Stmts, Ty};
use sf_list::{Sequence, TryClone};
use std::alloc::{AllocError, Global};

/// The type of what a `for` goes over, item by item.
#[tactic(auto, using(py_tree::proofs::Views::ty_views))]
pub fn item_ty(alloc: Global, ty: &Ty) -> Result<Ty, AllocError>
    ensures { IfOk result (λ item. plain_ty item ≡ the_item_ty (plain_ty ty.now)) }
{
    match element_of(ty) {
        None => Ok(Ty::Nil),
        Some(element) => element.try_clone(alloc),
    }
}

/// The locals at the head of a loop that assigns this name.
pub fn head_locals(
    alloc: Global,
    locals: &Locals,
    name: Name,
    body: &Stmts,
) -> Result<Locals, AllocError>
    ensures { IfOk result (λ made. plain_locals made ≡ spec.head_locals name.0 (stmts_of (plain_stmts body.now)) (plain_locals locals.now)) }
{
    let env = FlowEnv {
        class: 0,
        method: None,
        locals: copy_locals(alloc, locals)?,
    };
    let head = loop_head(alloc, &env, Some(name), body)?;
    drop(env);
    Ok(head.locals)
}

/// The locals at the head of a loop that assigns no name of its own.
pub fn while_locals(alloc: Global, locals: &Locals, body: &Stmts) -> Result<Locals, AllocError>
    ensures { IfOk result (λ made. plain_locals made ≡ flow.at_head (assigned_in (stmts_of (plain_stmts body.now))) (plain_locals locals.now)) }
{
    let env = FlowEnv {
        class: 0,
        method: None,
        locals: copy_locals(alloc, locals)?,
    };
    let head = loop_head(alloc, &env, None, body)?;
    drop(env);
    Ok(head.locals)
}

/// Whether there is a local of this name.
#[tactic(auto, unfolding(py_tree::specs::FlowEnvironment::local_of))]
fn has_local(locals: &[Local], name: Name) -> bool
    ensures { result ≡ is_some (local_of (plain_locals locals.now) name.0) }
{
    for local in locals {
        if local.name.0 == name.0 {
            return true;
        }
    }
    false
}

/// A value is given to a local, where it has this name.
fn give_if_named(local: &mut Local, name: Name, not_none: bool)
    ensures { plain_local local.new ≡ code.given_by name.0 not_none (plain_local local.old) }
{
    if local.name.0 == name.0 {
        local.assigned = true;
        local.not_none = not_none;
    }
}

/// A value is given to the local of this name.
fn give(locals: &mut Locals, name: Name, not_none: bool)
    ensures { plain_locals locals.new ≡ map (code.given_by name.0 not_none) (plain_locals locals.old) }
{
    for i in 0..locals.len() {
        give_if_named(locals.at_mut(i), name, not_none);
    }
}

/// The locals after a value of this type is given to a name.
#[tactic(auto, unfolding(py_tree::specs::Flow::with_local))]
pub fn with_local(alloc: Global, locals: Locals, name: Name, ty: Ty) -> Result<Locals, AllocError>
    ensures { IfOk result (λ made. plain_locals made ≡ flow.with_local name.0 (plain_ty ty) (plain_ty ty) (plain_locals locals)) }
{
    let mut made = locals;
    let not_none = !has_none(&ty);
    if has_local(made.as_slice(), name) {
        drop(ty);
        give(&mut made, name, not_none);
        return Ok(made);
    }
    let local = Local {
        name,
        ty,
        assigned: true,
        not_none,
    };
    made.push(alloc, local)?;
    Ok(made)
}

/// A sum.
fn plus(alloc: Global, place: Place, left: Expr, right: Expr) -> Result<Expr, AllocError>
    ensures { IfOk result (λ made. plain_expr made ≡ spec.plus place (plain_expr left) (plain_expr right)) }
{
    let mut links = Sequence::new(alloc);
    links.push(alloc, link_of(BinOp::Add, place, right))?;
    chain(alloc, place, left, links)
}

/// The next whole number.
fn next_number(alloc: Global, place: Place, name: Name) -> Result<Expr, AllocError>
    ensures { IfOk result (λ made. plain_expr made ≡ code.next_number place name.0) }
{
    plus(alloc, place, var_of(place, name), int_of(place, 1))
}

/// The temporaries of a loop over a list.
#[derive(Clone, Copy)]
pub struct ListNames {
    pub list: Name,
    /// The place in the list.
    pub place: Name,
    /// An empty list.
    pub empty: Name,
}

/// The number of items of a list.
fn length_of(alloc: Global, place: Place, list: Name) -> Result<Expr, AllocError>
    ensures { IfOk result (λ made. plain_expr made ≡ code.length_of place list.0) }
{
    let mut args = Sequence::new(alloc);
    args.push(alloc, var_of(place, list))?;
    Ok(apply_of(place, Name(7), args))
}

/// That the place is in the list.
#[tactic(auto, using(flat_tree::proofs::FlatViews::flat_views))]
pub fn list_test(alloc: Global, place: Place, names: ListNames) -> Result<FlatTest, AllocError>
    requires { names.place.0 ≡ names.list.0 + 1 }
    ensures { IfOk result (λ made. plain_flat_test made ≡ spec.list_test place names.list.0) }
{
    let length = length_of(alloc, place, names.list)?;
    let at = var_of(place, names.place);
    let test = comparison_of(alloc, place, Cmp::Lt, place, at, length)?;
    Ok(FlatTest::Leaf(Sequence::new(alloc), test))
}

/// One turn over a list: the element, the next place, and the body.
pub fn list_turn(
    alloc: Global,
    place: Place,
    name: Name,
    names: ListNames,
    body: FlatStmts,
) -> Result<FlatStmts, AllocError>
    requires { names.place.0 ≡ names.list.0 + 1 }
    ensures { IfOk result (λ made. plain_flat_stmts made ≡ spec.list_turn place name.0 names.list.0 (plain_flat_stmts body)) }
{
    let list = var_of(place, names.list);
    let element = index_of(alloc, place, list, var_of(place, names.place))?;
    let turn = with_set(alloc, Sequence::new(alloc), name, element)?;
    let next = next_number(alloc, place, names.place)?;
    let mut turn = with_set(alloc, turn, names.place, next)?;
    turn.append(alloc, body)?;
    Ok(turn)
}

/// What runs before a loop over a list: the list as one that has items, and the first place.
pub fn list_start(
    alloc: Global,
    place: Place,
    names: ListNames,
    before: FlatStmts,
) -> Result<FlatStmts, AllocError>
    requires place { names.place.0 ≡ names.list.0 + 1 }
    requires empty { names.empty.0 ≡ names.list.0 + 2 }
    ensures { IfOk result (λ made. plain_flat_stmts made ≡ plain_flat_stmts before ++ code.list_start place names.list.0) }
{
    let none = list_of(place, Sequence::new(alloc));
    let start = with_set(alloc, before, names.empty, none)?;
    let empty = var_of(place, names.empty);
    let items = plus(alloc, place, empty, var_of(place, names.list))?;
    let start = with_set(alloc, start, names.list, items)?;
    with_set(alloc, start, names.place, int_of(place, 0))
}

/// That the next number of a range is below its end.
#[tactic(auto, using(flat_tree::proofs::FlatViews::flat_views))]
pub fn range_test(alloc: Global, place: Place, from: Name, to: Name) -> Result<FlatTest, AllocError>
    ensures { IfOk result (λ made. plain_flat_test made ≡ spec.range_test place from.0 to.0) }
{
    let left = var_of(place, from);
    let test = comparison_of(alloc, place, Cmp::Lt, place, left, var_of(place, to))?;
    Ok(FlatTest::Leaf(Sequence::new(alloc), test))
}

/// One turn over a range: the number, the next one, and the body.
pub fn range_turn(
    alloc: Global,
    place: Place,
    name: Name,
    from: Name,
    body: FlatStmts,
) -> Result<FlatStmts, AllocError>
    ensures { IfOk result (λ made. plain_flat_stmts made ≡ spec.range_turn place name.0 from.0 (plain_flat_stmts body)) }
{
    let turn = with_set(alloc, Sequence::new(alloc), name, var_of(place, from))?;
    let next = next_number(alloc, place, from)?;
    let mut turn = with_set(alloc, turn, from, next)?;
    turn.append(alloc, body)?;
    Ok(turn)
}
