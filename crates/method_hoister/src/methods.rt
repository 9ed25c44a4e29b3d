//! A method as a flat method.

ghost use Rattle.std.specs.Prelude.{◌≡◌, map, IfOk};
ghost use Rattle.std.specs.Option.{IsSome};
ghost use Rattle.py_tree.specs.PlainStatements.{plain_stmts};
ghost use Rattle.py_tree.specs.ClassRules.{tables_of, body_of as the_body_of};
ghost use Rattle.py_tree.specs.Flow as flow;
ghost use Rattle.py_tree.specs.CheckedViews.{checked_program, checked_names};
ghost use Rattle.entity_tables.specs.Views.{plain_sig_param, plain_tables};
ghost use Rattle.entity_types.specs.Views.{plain_locals};
ghost use Rattle.block_code.specs.PlainVars.{plain_var, plain_vars};
ghost use Rattle.block_code.specs.GraphFits.{var_of_param};
ghost use Rattle.flat_tree.specs.PlainFlat.{plain_flat};
ghost use Rattle.hoisting.specs.Stages.{params_of_sig};
ghost use Rattle.method_hoister.specs.StatementViews as gives;
ghost use Rattle.method_hoister.specs.StatementViews.{method_in, OfMethod};

use crate::stmts::flat_all;
use block_code::{VarType, VarTypes};
use call_graph::CallGraph;
use entity_tables::SigParam;
use flat_tree::Flat;
use flow_types::{Locals, RuleError, Tables, check_method};
use hoisting::{Setting, Stage, sig_at};
use py_tree::{Checked, Stmt};
use sf_list::{Sequence, TryClone};
use std::alloc::{AllocError, Global};

/// The locals of a method where its body begins; a method that breaks a rule has none.
fn start_locals(
    alloc: Global,
    program: &Checked,
    tables: &Tables,
    class: u32,
    method: u32,
) -> Result<Locals, AllocError>
    requires tables { plain_tables tables.now ≡ tables_of (checked_names program.now) (checked_program program.now) }
    requires method { IsSome (method_in program.now class method) }
    ensures { OfMethod program.now class method (λ m. IfOk result (λ locals. plain_locals locals ≡ gives.locals_in program.now class method m)) }
{
    match check_method(
        alloc,
        tables,
        program.program(),
        program.names(),
        class,
        method,
    ) {
        Ok(locals) => Ok(locals),
        Err(RuleError::Fault(_)) => Ok(Sequence::new(alloc)),
        Err(RuleError::NoMemory) => Err(AllocError),
    }
}

/// A parameter as a variable.
fn var_of(alloc: Global, param: &SigParam) -> Result<VarType, AllocError>
    ensures { IfOk result (λ made. plain_var made ≡ var_of_param (plain_sig_param param.now)) }
{
    let ty = param.ty.try_clone(alloc)?;
    Ok(VarType {
        name: param.name,
        ty,
    })
}

/// Parameters as variables.
#[tactic(auto, using(crate::proofs::CodeLaws::params_more))]
fn vars_of(alloc: Global, params: &[SigParam]) -> Result<VarTypes, AllocError>
    ensures { IfOk result (λ made. plain_vars made ≡ map var_of_param (map plain_sig_param params.now)) }
{
    let mut made = Sequence::new(alloc);
    for param in params {
        made.push(alloc, var_of(alloc, param)?)?;
    }
    Ok(made)
}

/// The parameters of the method of this number, in the class of that number.
fn params_of(
    alloc: Global,
    tables: &Tables,
    class: u32,
    method: u32,
) -> Result<VarTypes, AllocError>
    ensures { IfOk result (λ made. plain_vars made ≡ map var_of_param (params_of_sig (flow.sig_at (plain_tables tables.now) class method))) }
{
    match sig_at(tables, class, method) {
        None => Ok(Sequence::new(alloc)),
        Some(sig) => vars_of(alloc, sig.params.as_slice()),
    }
}

/// The body of the method of this number, in the class of that number.
fn body_of(program: &Checked, class: u32, method: u32) -> &[Stmt]
    ensures { plain_stmts result.now ≡ the_body_of (method_in program.now class method) }
{
    match program.method(class, method) {
        None => &[],
        Some(found) => found.body.as_slice(),
    }
}

/// The flat method of the method of this number, in the class of that number. Methods are numbered from 0,
/// without `__init__` and `__key__`. Where its temporaries have no numbers below 2^32, it answers want of
/// memory.
pub fn hoist(
    alloc: Global,
    program: &Checked,
    tables: &Tables,
    calls: &CallGraph,
    class: u32,
    method: u32,
) -> Result<Flat, AllocError>
    requires tables { plain_tables tables.now ≡ tables_of (checked_names program.now) (checked_program program.now) }
    requires method { IsSome (method_in program.now class method) }
    ensures { OfMethod program.now class method (λ m. IfOk result (λ flat. plain_flat flat ≡ gives.flat_of program.now calls.now class method m)) }
{
    let locals = start_locals(alloc, program, tables, class, method)?;
    let params = params_of(alloc, tables, class, method)?;
    let setting = Setting {
        program,
        tables,
        calls,
        class,
        method,
    };
    let start = Stage {
        locals,
        next: program.names().count(),
    };
    let body = flat_all(alloc, &setting, start, body_of(program, class, method))?;
    Ok(Flat {
        params,
        body: body.code,
    })
}
