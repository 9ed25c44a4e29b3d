//! The rules on statements: what is known at each point of a method, or the first rule that it breaks.
//!
//! A statement is looked at with what is known at the point before it. A point that can't be reached
//! has no state: statements there aren't looked at, and name no locals.
#![tactic(auto)]

ghost use Rattle.std.specs.Prelude.{◌≡◌, Some, None, true, IfOk, OnOk};
ghost use Rattle.std.specs.Option.{IsSome};
ghost use Rattle.py_tree.specs.PlainStatements.{plain_stmt, plain_stmts, stmts_of};
ghost use Rattle.py_tree.specs.PlainProgram.{PlainMethod, plain_program};
ghost use Rattle.py_tree.specs.ClassRules.{program_fault, tables_of};
ghost use Rattle.py_tree.specs.Reachability.{goes_on};
ghost use Rattle.py_tree.specs.Flow.{flow, begun, at_head, method_locals, flow_fault};
ghost use Rattle.py_tree.specs.Acceptance.{KeepsRules};
ghost use Rattle.entity_tables.specs.Answers.{Finds};
ghost use Rattle.entity_tables.specs.Views.{plain_tables};
ghost use Rattle.entity_types.specs.Answers.{Types};
ghost use Rattle.entity_types.specs.Views.{plain_env, plain_locals};
ghost use Rattle.flow_types.specs.Answers.{Steps};
ghost use Rattle.flow_types.specs.Views.{context_of, loop_names, method_at};

mod assign;
mod branch;
mod context;
mod head;
mod known;
mod locals;
mod loops;
mod methods;
mod program;
mod simple;
mod values;
mod walk;
mod written;

use context::Context;
pub use entity_tables::Tables;
pub use entity_types::{FlowEnv, Local, Locals, RuleError};
use py_tree::{Name, Names, Program, Stmt, Stmts};
use sf_list::TryClone;
use std::alloc::{AllocError, Global};

/// The locals of the method of this number, as they are where its body begins, with all their types;
/// or the first rule that it breaks. Methods are numbered from 0, without `__init__` and `__key__`.
pub fn check_method(
    alloc: Global,
    tables: &Tables,
    program: &Program,
    names: &Names,
    class: u32,
    method: u32,
) -> Result<Locals, RuleError>
    requires { IsSome (method_at names.now (plain_program program.now) class method) }
    ensures { (m : PlainMethod) → method_at names.now (plain_program program.now) class method ≡ Some m
        → Types plain_locals (method_locals (plain_tables tables.now) class method m) result }
{
    let found = program::method_in(names, program.classes.as_slice(), class, method).unwrap();
    methods::method_locals(alloc, tables, names, class, method, found)
}

/// The first rule on types and statements that a program breaks which breaks no class rule, of which
/// these are the tables.
#[tactic(auto, unfolding(py_tree::specs::Flow::flow_fault))]
pub fn check_program(
    alloc: Global,
    tables: &Tables,
    program: &Program,
    names: &Names,
) -> Result<(), RuleError>
    requires tables { plain_tables tables.now ≡ tables_of names.now (plain_program program.now) }
    requires classes { program_fault names.now (plain_program program.now) ≡ None }
    ensures flow { Finds (flow_fault names.now (plain_program program.now)) result }
    ensures keeps { OnOk result (KeepsRules names.now (plain_program program.now)) }
{
    program::check_classes(alloc, tables, names, program.classes.as_slice())
}

/// What is known behind a statement of a loop's body, and whether the point behind it can be reached.
pub fn step(
    alloc: Global,
    tables: &Tables,
    names: &Names,
    env: &mut FlowEnv,
    stmt: &Stmt,
) -> Result<bool, RuleError>
    ensures { Steps (flow (context_of (plain_tables tables.now) env.old true) (begun (plain_locals env.old.locals)) (plain_stmt stmt.now))
        (goes_on (plain_stmt stmt.now)) env.old env.new result }
{
    let context = Context {
        tables,
        names,
        in_loop: true,
    };
    let mut breaks = None;
    walk::statement(alloc, &context, env, &mut breaks, stmt)
}

/// What is known at the head of a loop: names that the loop assigns, that of a `for` among them, are
/// no longer surely not None.
#[tactic(auto, using(crate::proofs::HeadLaws::head_laws))]
pub fn loop_head(
    alloc: Global,
    env: &FlowEnv,
    name: Option<Name>,
    body: &Stmts,
) -> Result<FlowEnv, AllocError>
    ensures { IfOk result (λ r. plain_env r ≡ record (plain_env env.now)
        { locals = at_head (loop_names name (stmts_of (plain_stmts body.now))) (plain_locals env.now.locals) }) }
{
    let mut head = env.try_clone(alloc)?;
    if let Some(name) = name {
        head::forget(&mut head.locals, name);
    }
    head::forget_assigned_in(&mut head.locals, body.as_slice());
    Ok(head)
}
