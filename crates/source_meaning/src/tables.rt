//! Look-ups in a program: methods, their parameters and bodies, and the entity that a creation makes.

ghost use Rattle.std.specs.Prelude.{◌≡◌, ◌≤◌, slice_get, IfOk};
ghost use Rattle.std.specs.Option.{option_map};
ghost use Rattle.py_tree.specs.PlainStatements.{plain_stmts, stmts_of};
ghost use Rattle.py_tree.specs.PlainProgram.{plain_method, plain_params};
ghost use Rattle.py_tree.specs.ClassRules.{params_of, body_of};
ghost use Rattle.py_tree.specs.Bounded.{most_nodes, stmts_size};
ghost use Rattle.sf_value.specs.Keys.{key_of as the_key_of};
ghost use Rattle.program_meaning.specs.ClassTables.{init_of, methods_of};
ghost use Rattle.program_meaning.specs.World.{value_at};
ghost use Rattle.program_meaning.specs.Operations.{text_of};
ghost use Rattle.program_meaning.specs.Evaluation.{class_of, method_of};
ghost use Rattle.program_meaning.specs.Calls.{new_key};
ghost use Rattle.program_meaning.specs.Sources.{source_of};

use crate::failures::empty_text;
use crate::operations::text;
use py_tree::{Checked, Method, Name, Param, Stmt};
use sf_value::{Ref, Text, Values};
use std::alloc::{AllocError, Global};

/// The parameters of a method, where there is one.
pub(crate) fn params(method: Option<&Method>) -> &[Param]
    ensures { plain_params result.now ≡ params_of (option_map (λ m. plain_method m.now) method.entry) }
{
    match method {
        Some(method) => method.params.as_slice(),
        None => &[],
    }
}

/// The body of a method, where there is one.
pub(crate) fn body(method: Option<&Method>) -> &[Stmt]
    ensures { plain_stmts result.now ≡ body_of (option_map (λ m. plain_method m.now) method.entry) }
{
    match method {
        Some(method) => method.body.as_slice(),
        None => &[],
    }
}

/// The `__init__` of a class.
pub(crate) fn init(program: &Checked, class: u32) -> Option<&Method>
    ensures method { option_map (λ m. plain_method m.now) result ≡ init_of (source_of program.now) class }
    ensures small { stmts_size (stmts_of (body_of (option_map (λ m. plain_method m.now) result))) ≤ most_nodes }
{
    program.init(class)
}

/// The method of a class with this number, counted without `__init__` and `__key__`.
pub fn method_at(program: &Checked, class: u32, number: u32) -> Option<&Method>
    ensures method { option_map (λ m. plain_method m.now) result ≡ slice_get (methods_of (source_of program.now) class) number }
    ensures small { stmts_size (stmts_of (body_of (option_map (λ m. plain_method m.now) result))) ≤ most_nodes }
{
    program.method(class, number)
}

/// The parameters of a method.
pub fn method_params(program: &Checked, class: u32, number: u32) -> &[Param]
    ensures { plain_params result.now ≡ params_of (slice_get (methods_of (source_of program.now) class) number) }
{
    params(method_at(program, class, number))
}

/// The parameters of a creation, which are those of `__init__`.
pub fn init_params(program: &Checked, class: u32) -> &[Param]
    ensures { plain_params result.now ≡ params_of (init_of (source_of program.now) class) }
{
    params(init(program, class))
}

/// The number of the class with this name, 0 where there is none.
#[tactic(auto, unfolding(program_meaning::specs::Evaluation::class_of))]
pub(crate) fn class_number(program: &Checked, name: Name) -> u32
    ensures { result ≡ class_of (source_of program.now) name.0 }
{
    program.class_by_name(name).unwrap_or(0)
}

/// The number of the method with this name in a class, 0 where there is none.
#[tactic(auto, unfolding(program_meaning::specs::Evaluation::method_of))]
pub(crate) fn method_number(program: &Checked, class: u32, name: Name) -> u32
    ensures { result ≡ method_of (source_of program.now) class name.0 }
{
    program.method_by_name(class, name).unwrap_or(0)
}

/// The text of the argument that gives the key.
fn key_text(alloc: Global, args: &Values, at: Option<usize>) -> Result<Text, AllocError>
    ensures { IfOk result (λ made. made ≡ text_of (value_at args.now at)) }
{
    let Some(at) = at else {
        return empty_text(alloc);
    };
    match args.get(at) {
        Some(value) => text(alloc, value),
        None => empty_text(alloc),
    }
}

/// The entity that a creation with these arguments makes.
pub fn new_entity(
    alloc: Global,
    program: &Checked,
    class: u32,
    args: &Values,
) -> Result<Ref, AllocError>
    ensures { IfOk result (λ at. the_key_of at ≡ new_key (source_of program.now) class args.now) }
{
    let key = key_text(alloc, args, program.key_param(class))?;
    Ok(Ref { class, key })
}
