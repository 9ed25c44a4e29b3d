//! The locals of a running method, and the fields of its own record.
#![tactic(auto, unfolding(program_meaning::specs::World::local_value, program_meaning::specs::World::assigned, program_meaning::specs::World::field_value, program_meaning::specs::World::with_field))]

ghost use Rattle.std.specs.Prelude.{◌≡◌, ◌<◌, ◌++◌, IfOk, IfSome, OnOk, map, position, length, nat_eq, unwrap_or};
ghost use Rattle.std.specs.Option.{option_copied};
ghost use Rattle.sf_value.specs.declared.value.Value.TheVariants as value;
ghost use Rattle.py_tree.specs.PlainProgram.{plain_params};
ghost use Rattle.program_meaning.specs.Calls.{bound};
ghost use Rattle.program_meaning.specs.ClassTables.{fields_of};
ghost use Rattle.program_meaning.specs.Sources.{source_of};
ghost use Rattle.program_meaning.specs.World.{local_value, assigned, field_value, with_field, is_named};

use program_meaning::{Var, Vars};
use py_tree::{Checked, Name, Param};
use sf_list::{Sequence, TryClone};
use sf_value::{Record, Value, Values};
use std::alloc::{AllocError, Global};

/// The value of a local, where there is one.
pub(crate) fn local(vars: &Vars, name: Name) -> Option<&Value>
    ensures { unwrap_or (option_copied result) value.Nil ≡ local_value vars.now name.0 }
{
    let at = place_of_local(vars.as_slice(), name)?;
    let var = vars.get(at)?;
    Some(&var.value)
}

/// A copy of a local's value.
pub(crate) fn read_local(alloc: Global, vars: &Vars, name: Name) -> Result<Value, AllocError>
    ensures { IfOk result (λ value. value ≡ local_value vars.now name.0) }
{
    match local(vars, name) {
        Some(value) => value.try_clone(alloc),
        None => Ok(Value::Nil),
    }
}

fn place_of_local(vars: &[Var], name: Name) -> Option<usize>
    ensures place { result ≡ position (is_named name.0) vars.now }
    ensures within { IfSome result (λ at. at < length vars.now) }
{
    vars.iter().position(|var| var.name.0 == name.0)
}

/// Assigns a local, which joins the others where it is new.
pub fn assign_local(
    alloc: Global,
    vars: &mut Vars,
    name: Name,
    value: Value,
) -> Result<(), AllocError>
    ensures { OnOk result (vars.new ≡ assigned vars.old name.0 value) }
{
    match place_of_local(vars.as_slice(), name) {
        Some(at) => {
            vars.set(at, Var { name, value });
            Ok(())
        }
        None => vars.push(alloc, Var { name, value }),
    }
}

fn place_of_field(names: &[Name], name: Name) -> Option<usize>
    ensures { result ≡ position (λ x. nat_eq x.0 name.0) names.now }
{
    names.iter().position(|field| field.0 == name.0)
}

/// The value of a field, where there is one.
#[tactic(auto, using(crate::proofs::VarLaws::position_names), unfolding(program_meaning::specs::World::field_value))]
pub(crate) fn field<'a>(names: &[Name], fields: &'a Values, name: Name) -> Option<&'a Value>
    ensures { unwrap_or (option_copied result) value.Nil ≡ field_value (map (λ x. x.0) names.now) fields.now name.0 }
{
    fields.get(place_of_field(names, name)?)
}

/// Sets a field of a record.
#[tactic(auto, using(crate::proofs::VarLaws::position_names, crate::proofs::VarLaws::set_past), unfolding(program_meaning::specs::World::with_field))]
pub(crate) fn set_field(names: &[Name], fields: &mut Values, name: Name, value: Value)
    ensures { fields.new ≡ with_field (map (λ x. x.0) names.now) fields.old name.0 value }
{
    let Some(at) = place_of_field(names, name) else {
        return;
    };
    if at < fields.len() {
        fields.set(at, value);
    }
}

/// Assigns a field in a record of this class.
pub fn assign_field(program: &Checked, class: u32, held: &mut Record, name: Name, value: Value)
    ensures { held.new.fields ≡ with_field (fields_of (source_of program.now) class) held.old.fields name.0 value }
{
    set_field(program.fields(class), &mut held.fields, name, value);
}

/// The arguments as the first locals.
pub(crate) fn bind(alloc: Global, params: &[Param], args: &Values) -> Result<Vars, AllocError>
    ensures { IfOk result (λ vars. vars ≡ bound (plain_params params.now) args.now) }
{
    let mut vars = Sequence::new(alloc);
    for (i, param) in params.iter().enumerate() {
        let Some(value) = args.get(i) else {
            return Ok(vars);
        };
        let value = value.try_clone(alloc)?;
        vars.push(
            alloc,
            Var {
                name: param.name,
                value,
            },
        )?;
    }
    Ok(vars)
}

/// Moves the arguments behind the locals that there are, up to the last parameter.
fn move_args(
    alloc: Global,
    params: &[Param],
    args: Values,
    vars: &mut Vars,
) -> Result<(), AllocError>
    ensures { OnOk result (vars.new ≡ vars.old ++ bound (plain_params params.now) args) }
{
    let mut args = args.into_iter();
    for param in params {
        let Some(value) = args.next() else {
            return Ok(());
        };
        vars.push(
            alloc,
            Var {
                name: param.name,
                value,
            },
        )?;
    }
    Ok(())
}

/// The arguments as the first locals, moved there.
pub fn bind_moved(alloc: Global, params: &[Param], args: Values) -> Result<Vars, AllocError>
    ensures { IfOk result (λ vars. vars ≡ bound (plain_params params.now) args) }
{
    let mut vars = Sequence::new(alloc);
    match move_args(alloc, params, args, &mut vars) {
        Ok(()) => Ok(vars),
        Err(error) => {
            drop(vars);
            Err(error)
        }
    }
}
