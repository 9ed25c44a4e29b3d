//! Into the body of a `for`.

ghost use Rattle.std.specs.Prelude.{◌≡◌, ◌∷◌, Ok as Found, OnOk};
ghost use Rattle.py_tree.specs.PlainTypes.{plain_ty};
ghost use Rattle.py_tree.specs.PlainStatements.{plain_over, plain_stmts, stmts_of};
ghost use Rattle.py_tree.specs.Reachability.{assigned_in};
ghost use Rattle.py_tree.specs.ExpressionTypes.{with_found};
ghost use Rattle.py_tree.specs.Flow as spec;
ghost use Rattle.entity_types.specs.Views.{plain_locals};
ghost use Rattle.flow_types.specs.Views.{seen_at};
ghost use Rattle.flow_types.specs.Answers.{Locates, Enters};
ghost use Rattle.flow_types.specs.Parts.{for_entry};

use crate::context::Context;
use crate::head::{forget, forget_assigned_in};
use crate::known::{Standings, known_at, settle};
use crate::locals::{assign_local, check_local, store};
use crate::values::item_of;
use entity_types::types::has_none;
use entity_types::{FlowEnv, Locals, RuleError};
use py_tree::{Name, Over, PlacedName, Stmt, Ty};
use sf_list::TryClone;
use std::alloc::{AllocError, Global};

/// A name is typed by items, and is no more assigned than before.
fn name_item(alloc: Global, env: &mut FlowEnv, name: PlacedName, item: &Ty) -> Result<(), RuleError>
    ensures { Locates (with_found (spec.stored (plain_locals env.old.locals) name (plain_ty item.now))
        (λ named. Found (spec.settled named (spec.known_at (plain_locals env.old.locals))))) env.old env.new result }
{
    let before = known_at(alloc, env.locals.as_slice())?;
    store(alloc, env, name, item.try_clone(alloc)?)?;
    settle(&mut env.locals, before.as_slice());
    Ok(())
}

/// The names that a `for` assigns, its own and those of its body, are no longer surely not None.
#[tactic(auto, using(crate::proofs::HeadLaws::head_laws))]
fn forget_all(locals: &mut Locals, name: Name, body: &[Stmt])
    ensures { plain_locals locals.new ≡ spec.at_head (name.0 ∷ assigned_in (stmts_of (plain_stmts body.now))) (plain_locals locals.old) }
{
    forget(locals, name);
    forget_assigned_in(locals, body);
}

/// An item is assigned to a name.
fn take_item(alloc: Global, locals: &mut Locals, name: Name, item: Ty) -> Result<(), AllocError>
    ensures { OnOk result (plain_locals locals.new ≡ spec.with_local name.0 (plain_ty item) (plain_ty item) (plain_locals locals.old)) }
{
    let may_be_none = has_none(&item);
    assign_local(alloc, locals, name, item, may_be_none)
}

/// To where the body of a `for` begins. What is known at the head is told.
#[tactic(auto, unfolding(crate::specs::Parts::for_entry, py_tree::specs::Flow::for_head))]
pub fn enter_for(
    alloc: Global,
    context: &Context<'_>,
    env: &mut FlowEnv,
    name: PlacedName,
    over: &Over,
    body: &[Stmt],
) -> Result<Standings, RuleError>
    ensures { Enters (for_entry (seen_at context.now env.old) (plain_locals env.old.locals) name (plain_over over.now) (stmts_of (plain_stmts body.now)))
        env.old env.new result }
{
    let item = item_of(alloc, context, env, over)?;
    check_local(context.tables, env.locals.as_slice(), name)?;
    name_item(alloc, env, name, &item)?;
    forget_all(&mut env.locals, name.name, body);
    let head = known_at(alloc, env.locals.as_slice())?;
    take_item(alloc, &mut env.locals, name.name, item)?;
    Ok(head)
}
