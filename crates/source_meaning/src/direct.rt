//! What code does without running other code: it takes steps, reads what stands there, and stores values.

ghost use Rattle.std.specs.Prelude.{◌≡◌, ◌+◌, ℕ, IfErr, IfOk, OnOk, OnErr};
ghost use Rattle.sf_value.specs.Keys.{key_of};
ghost use Rattle.sf_value.specs.declared.value.Value.TheVariants as value;
ghost use Rattle.program_meaning.specs.World.{Goes, step_limit, local_value};
ghost use Rattle.program_meaning.specs.Operations.{weighed};
ghost use Rattle.program_meaning.specs.Evaluation.{entity, key_in, literal as the_literal, own_field as the_own_field};
ghost use Rattle.program_meaning.specs.Execution.{store as the_store, target_value};
ghost use Rattle.program_meaning.specs.Sources.{source_of};
ghost use Rattle.source_meaning.specs.Sites.{site_of};
ghost use Rattle.source_meaning.specs.Transactions.{world_of};
ghost use Rattle.source_meaning.specs.Agrees.{FailsAs, Tells};

use crate::Stop;
use crate::failures::{STEP_LIMIT, empty_text, fail};
use crate::in_place::own_value;
use crate::operations::weigh;
use crate::site::Site;
use crate::transaction::Transaction;
use crate::vars::{assign_local, read_local};
use program_meaning::Vars;
use py_tree::{Name, Target, name_text};
use sf_list::TryClone;
use sf_value::{Ref, Text, Value};
use std::alloc::{AllocError, Global};

/// Takes a step, where there is one left.
pub(crate) fn take_step(alloc: Global, steps: &mut u32) -> Result<(), Stop>
    ensures taken { OnOk result (steps.old ≡ steps.new + 1) }
    ensures none_left { OnErr result (steps.old ≡ 0) }
    ensures kept { OnErr result (steps.new ≡ steps.old) }
    ensures failure { IfErr result (λ stop. FailsAs stop step_limit) }
{
    if *steps == 0 {
        return Err(fail(alloc, STEP_LIMIT));
    }
    *steps -= 1;
    Ok(())
}

/// The text that a literal's name stands for.
#[tactic(auto, unfolding(program_meaning::specs::Evaluation::literal))]
fn literal(site: &Site<'_>, name: Name) -> Result<Value, AllocError>
    ensures { IfOk result (λ v. v ≡ value.Str (the_literal (source_of site.now.program.now) name.0)) }
{
    let text = Text::of(site.alloc, name_text(site.program.names(), name))?;
    Ok(Value::Str(text))
}

/// The text that a literal's name stands for, weighed.
#[inline(never)]
pub(crate) fn read_literal(site: &Site<'_>, name: Name) -> Result<Value, Stop>
    ensures { Tells result (weighed (value.Str (the_literal (source_of site.now.program.now) name.0))) }
{
    weigh(site.alloc, literal(site, name)?)
}

/// A copy of a local's value, weighed.
#[inline(never)]
pub(crate) fn read_variable(site: &Site<'_>, vars: &Vars, name: Name) -> Result<Value, Stop>
    ensures { Tells result (weighed (local_value vars.now name.0)) }
{
    weigh(site.alloc, read_local(site.alloc, vars, name)?)
}

/// The own entity as a value.
fn own_entity(site: &Site<'_>) -> Result<Value, AllocError>
    ensures { IfOk result (λ v. v ≡ entity (key_of site.now.me.now)) }
{
    Ok(Value::Entity(site.me.try_clone(site.alloc)?))
}

/// The own entity as a value, weighed.
#[inline(never)]
pub(crate) fn read_self(site: &Site<'_>) -> Result<Value, Stop>
    ensures { Tells result (weighed (entity (key_of site.now.me.now))) }
{
    weigh(site.alloc, own_entity(site)?)
}

/// A copy of an own field.
fn own_field(site: &Site<'_>, name: Name, tx: &Transaction) -> Result<Value, AllocError>
    ensures { IfOk result (λ v. v ≡ the_own_field (site_of site.now) name.0 (world_of site.now.state.now tx.now)) }
{
    match own_value(site, name, tx) {
        Some(value) => value.try_clone(site.alloc),
        None => Ok(Value::Nil),
    }
}

/// A copy of an own field, weighed.
#[inline(never)]
pub(crate) fn read_field(site: &Site<'_>, name: Name, tx: &Transaction) -> Result<Value, Stop>
    ensures { Tells result (weighed (the_own_field (site_of site.now) name.0 (world_of site.now.state.now tx.now))) }
{
    weigh(site.alloc, own_field(site, name, tx)?)
}

/// A target as it is read.
fn target_copy(
    site: &Site<'_>,
    target: Target,
    vars: &Vars,
    tx: &Transaction,
) -> Result<Value, AllocError>
    ensures { IfOk result (λ v. v ≡ target_value (site_of site.now) target vars.now (world_of site.now.state.now tx.now)) }
{
    match target {
        Target::Local(x) => read_local(site.alloc, vars, x.name),
        Target::Field(x) => own_field(site, x.name, tx),
    }
}

/// A target as it is read, weighed.
#[inline(never)]
pub(crate) fn read_target(
    site: &Site<'_>,
    target: Target,
    vars: &Vars,
    tx: &Transaction,
) -> Result<Value, Stop>
    ensures { Tells result (weighed (target_value (site_of site.now) target vars.now (world_of site.now.state.now tx.now))) }
{
    weigh(site.alloc, target_copy(site, target, vars, tx)?)
}

/// Stores a value in a local, or in an own field.
#[inline(never)]
pub(crate) fn store(
    site: &Site<'_>,
    target: Target,
    value: Value,
    vars: &mut Vars,
    tx: &mut Transaction,
) -> Result<(), AllocError>
    ensures { (n : ℕ) → OnOk result (the_store (site_of site.now) target value vars.old (world_of site.now.state.now tx.old) n
        ≡ Goes vars.new (world_of site.now.state.now tx.new) n) }
{
    match target {
        Target::Local(x) => assign_local(site.alloc, vars, x.name, value),
        Target::Field(x) => tx.set_field(site, x.name, value),
    }
}

/// The entity that a value is.
#[inline(never)]
pub fn target_entity(alloc: Global, on: &Value) -> Result<Ref, AllocError>
    ensures { IfOk result (λ at. key_of at ≡ key_in on.now) }
{
    match on {
        Value::Entity(at) => at.try_clone(alloc),
        Value::Int(_) | Value::Bool(_) | Value::Str(_) | Value::Nil | Value::List(_) => Ok(Ref {
            class: 0,
            key: empty_text(alloc)?,
        }),
    }
}

/// The number of the class of the entity that a value is.
pub(crate) fn target_class(on: &Value) -> u32
    ensures { result ≡ (key_in on.now).0 }
{
    match on {
        Value::Entity(at) => at.class,
        Value::Int(_) | Value::Bool(_) | Value::Str(_) | Value::Nil | Value::List(_) => 0,
    }
}
