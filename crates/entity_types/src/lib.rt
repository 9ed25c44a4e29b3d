//! Types of expressions: the type of an expression under what is known at a point, or the first rule that it breaks.
#![tactic(auto)]

ghost use Rattle.std.specs.Prelude.{None};
ghost use Rattle.py_tree.specs.PlainTypes.{plain_ty};
ghost use Rattle.py_tree.specs.PlainExpressions.{plain_expr};
ghost use Rattle.py_tree.specs.ExpressionTypes.{type_of, as_condition, place_of};
ghost use Rattle.entity_tables.specs.Views.{plain_tables};
ghost use Rattle.entity_types.specs.Answers.{Types, Checks};
ghost use Rattle.entity_types.specs.Views.{plain_env, plain_wanted};

mod calls;
mod copy;
mod env;
mod fault;
mod functions;
mod known;
pub mod lookup;
mod narrowing;
pub mod operators;
mod scope;
pub mod types;
mod walk;

pub use entity_tables::{RuleError, Tables};
pub use env::{FlowEnv, Local, Locals};
pub use fault::{refuse, told};
pub use narrowing::{narrow, narrow_here, shows};
use py_tree::{Expr, Names, Ty};
use std::alloc::Global;

/// The type of an expression where this is known, or the first rule that it breaks. A wanted type is
/// that of an argument, of an element, or of what is assigned or returned.
///
/// The functions are told by the numbers that their names have in each table of names, so `_names`
/// isn't read.
pub fn type_expr(
    alloc: Global,
    tables: &Tables,
    _names: &Names,
    env: &FlowEnv,
    wanted: Option<&Ty>,
    expr: &Expr,
) -> Result<Ty, RuleError>
    ensures { Types plain_ty (type_of (plain_tables tables.now) (plain_env env.now) (plain_wanted wanted.entry) (plain_expr expr.now)) result }
{
    let scope = known::whole(alloc, env)?;
    walk::type_in(alloc, tables.as_slice(), &scope, wanted, expr)
}

/// That the test of a statement is bool, or the first rule that it breaks. `_names` isn't read, as
/// above.
#[tactic(auto, using(py_tree::proofs::TypeRules::place_rules))]
pub fn condition(
    alloc: Global,
    tables: &Tables,
    _names: &Names,
    env: &FlowEnv,
    test: &Expr,
) -> Result<(), RuleError>
    ensures { Checks (as_condition (place_of (plain_expr test.now)) (type_of (plain_tables tables.now) (plain_env env.now) None (plain_expr test.now))) result }
{
    let scope = known::whole(alloc, env)?;
    walk::condition_in(alloc, tables.as_slice(), &scope, test)
}
