//! Methods and `__init__`: where their bodies begin, and what their locals are.

ghost use Rattle.std.specs.Prelude.{◌≡◌, map, option_map, IfOk};
ghost use Rattle.py_tree.specs.PlainStatements.{plain_stmts};
ghost use Rattle.py_tree.specs.PlainProgram.{plain_method};
ghost use Rattle.py_tree.specs.FlowEnvironment.{has_none as none_in};
ghost use Rattle.py_tree.specs.Flow as spec;
ghost use Rattle.entity_tables.specs.Answers.{Finds};
ghost use Rattle.entity_tables.specs.Views.{plain_sig_param, plain_sig, plain_tables};
ghost use Rattle.entity_types.specs.Answers.{Types};
ghost use Rattle.entity_types.specs.Views.{plain_local, plain_locals};
ghost use Rattle.flow_types.specs.Views.{seen_at};

use crate::context::Context;
use crate::known::{known_at, settle};
use crate::values::result_at;
use crate::walk::statements;
use entity_tables::{Sig, SigParam, Tables};
use entity_types::types::has_none;
use entity_types::{FlowEnv, Local, Locals, RuleError, refuse};
use py_tree::{Method, Names, Rule, Stmt};
use sf_list::{Sequence, TryClone};
use std::alloc::{AllocError, Global};

fn param_local(alloc: Global, param: &SigParam) -> Result<Local, AllocError>
    ensures { IfOk result (λ made. plain_local made ≡ spec.param_local (plain_sig_param param.now)) }
{
    let ty = param.ty.try_clone(alloc)?;
    let not_none = !has_none(&ty);
    Ok(Local {
        name: param.name,
        ty,
        assigned: true,
        not_none,
    })
}

/// Parameters as locals, which have values.
#[tactic(auto, using(crate::proofs::MethodLaws::param_laws))]
fn param_locals(alloc: Global, params: &[SigParam]) -> Result<Locals, AllocError>
    ensures { IfOk result (λ made. plain_locals made ≡ map spec.param_local (map plain_sig_param params.now)) }
{
    let mut made = Sequence::new(alloc);
    for param in params {
        made.push(alloc, param_local(alloc, param)?)?;
    }
    Ok(made)
}

/// The method of this number, in the class of that number.
fn sig_at(tables: &Tables, class: u32, method: u32) -> Option<&Sig>
    ensures { option_map (λ m. plain_sig m.now) result ≡ spec.sig_at (plain_tables tables.now) class method }
{
    let table = tables.get(class as usize)?;
    table.methods.get(method as usize)
}

/// The locals where the body of a method begins.
fn locals_at_start(alloc: Global, sig: Option<&Sig>) -> Result<Locals, AllocError>
    ensures { IfOk result (λ made. plain_locals made ≡ spec.locals_at_start (option_map (λ m. plain_sig m.now) sig.entry)) }
{
    match sig {
        None => Ok(Sequence::new(alloc)),
        Some(sig) => param_locals(alloc, sig.params.as_slice()),
    }
}

/// The locals where the body of `__init__` begins.

fn init_locals(alloc: Global, tables: &Tables, class: u32) -> Result<Locals, AllocError>
    ensures { IfOk result (λ made. plain_locals made ≡ spec.init_locals (plain_tables tables.now) class) }
{
    match tables.get(class as usize) {
        None => Ok(Sequence::new(alloc)),
        Some(table) => param_locals(alloc, table.init.as_slice()),
    }
}

/// Whether None belongs to the result type of a method.
fn may_give_none(context: &Context<'_>, env: &FlowEnv) -> bool
    ensures { result ≡ none_in (spec.result_at (seen_at context.now env.now)) }
{
    match result_at(context, env) {
        None => true,
        Some(ty) => has_none(ty),
    }
}

/// The locals of a method as they are where its body begins, with all their types.
#[tactic(auto, unfolding(py_tree::specs::Flow::method_locals))]
pub fn method_locals(
    alloc: Global,
    tables: &Tables,
    names: &Names,
    class: u32,
    number: u32,
    method: &Method,
) -> Result<Locals, RuleError>
    ensures { Types plain_locals (spec.method_locals (plain_tables tables.now) class number (plain_method method.now)) result }
{
    let locals = locals_at_start(alloc, sig_at(tables, class, number))?;
    let start = known_at(alloc, locals.as_slice())?;
    let mut env = FlowEnv {
        class,
        method: Some(number),
        locals,
    };
    let context = Context {
        tables,
        names,
        in_loop: false,
    };
    let mut breaks = None;
    let goes_on = statements(
        alloc,
        &context,
        &mut env,
        &mut breaks,
        method.body.as_slice(),
    )?;
    let misses_return = goes_on && !may_give_none(&context, &env);
    refuse(misses_return, Rule::MissingReturn, method.place)?;
    let mut locals = env.locals;
    settle(&mut locals, start.as_slice());
    Ok(locals)
}

/// The rules of the types in `__init__`, of which these are the statements.
#[tactic(auto, unfolding(py_tree::specs::Flow::init_flow_fault))]
pub fn check_init(
    alloc: Global,
    tables: &Tables,
    names: &Names,
    class: u32,
    body: &[Stmt],
) -> Result<(), RuleError>
    ensures { Finds (spec.init_flow_fault (plain_tables tables.now) class (plain_stmts body.now)) result }
{
    let mut env = FlowEnv {
        class,
        method: None,
        locals: init_locals(alloc, tables, class)?,
    };
    let context = Context {
        tables,
        names,
        in_loop: false,
    };
    let mut breaks = None;
    statements(alloc, &context, &mut env, &mut breaks, body)?;
    Ok(())
}
