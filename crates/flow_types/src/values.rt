//! The rules on the values of a statement: what is returned, what is raised, what a loop goes over.

ghost use Rattle.std.specs.Prelude.{◌≡◌, not, unwrap_or};
ghost use Rattle.py_tree.specs.declared.rule.Rule.TheVariants.{Mismatch};
ghost use Rattle.py_tree.specs.PlainTypes.{plain_ty, TNil};
ghost use Rattle.py_tree.specs.PlainExpressions.{plain_expr};
ghost use Rattle.py_tree.specs.PlainStatements.{PItems, plain_option, plain_over};
ghost use Rattle.py_tree.specs.ClassRules.{broken};
ghost use Rattle.py_tree.specs.ExpressionTypes.{assignable as assigns};
ghost use Rattle.py_tree.specs.Flow as spec;
ghost use Rattle.entity_tables.specs.Answers.{Finds};
ghost use Rattle.entity_types.specs.Answers.{Types, Checks};
ghost use Rattle.entity_types.specs.Views.{plain_locals, plain_wanted};
ghost use Rattle.flow_types.specs.Views.{seen_at};

use crate::context::Context;
use entity_types::types::{assignable, element_of, has_none, is_int, is_str};
use entity_types::{FlowEnv, RuleError, condition, refuse, told, type_expr};
use py_tree::{Expr, Over, Place, Rule, Ty};
use sf_list::TryClone;
use std::alloc::Global;

/// The type of an expression at a point.
pub fn type_at(
    alloc: Global,
    context: &Context<'_>,
    env: &FlowEnv,
    wanted: Option<&Ty>,
    expr: &Expr,
) -> Result<Ty, RuleError>
    ensures { Types plain_ty (spec.type_at (seen_at context.now env.now) (plain_locals env.now.locals) (plain_wanted wanted.entry) (plain_expr expr.now))
        result }
{
    type_expr(alloc, context.tables, context.names, env, wanted, expr)
}

/// The rules of a test.
pub fn check_condition(
    alloc: Global,
    context: &Context<'_>,
    env: &FlowEnv,
    test: &Expr,
) -> Result<(), RuleError>
    ensures { Checks (spec.condition_at (seen_at context.now env.now) (plain_locals env.now.locals) (plain_expr test.now)) result }
{
    condition(alloc, context.tables, context.names, env, test)
}

/// The type of a value that stands where this type is asked.
#[tactic(auto, using(py_tree::proofs::TypeRules::place_rules), unfolding(py_tree::specs::Flow::value_as))]
pub fn value_as(
    alloc: Global,
    context: &Context<'_>,
    env: &FlowEnv,
    wanted: &Ty,
    value: &Expr,
) -> Result<Ty, RuleError>
    ensures { Types plain_ty (spec.value_as (seen_at context.now env.now) (plain_locals env.now.locals) (plain_ty wanted.now) (plain_expr value.now)) result }
{
    let ty = type_at(alloc, context, env, Some(wanted), value)?;
    refuse(!assignable(&ty, wanted), Rule::Mismatch, value.place)?;
    Ok(ty)
}

/// The type of an end of a `range`, which is a whole number.
#[tactic(auto, using(py_tree::proofs::TypeRules::place_rules, py_tree::proofs::Views::ty_views), unfolding(py_tree::specs::Flow::number_at))]
fn number_at(
    alloc: Global,
    context: &Context<'_>,
    env: &FlowEnv,
    expr: &Expr,
) -> Result<Ty, RuleError>
    ensures { Types plain_ty (spec.number_at (seen_at context.now env.now) (plain_locals env.now.locals) (plain_expr expr.now)) result }
{
    let ty = type_at(alloc, context, env, None, expr)?;
    refuse(has_none(&ty), Rule::NoneUse, expr.place)?;
    refuse(!is_int(&ty), Rule::Operand, expr.place)?;
    Ok(Ty::Int)
}

/// The element type of the list that a `for` goes over.
#[tactic(auto, using(py_tree::proofs::TypeRules::place_rules), unfolding(py_tree::specs::Flow::item_of))]
fn item_in(
    alloc: Global,
    context: &Context<'_>,
    env: &FlowEnv,
    items: &Expr,
) -> Result<Ty, RuleError>
    ensures { Types plain_ty (spec.item_of (seen_at context.now env.now) (plain_locals env.now.locals) (PItems (plain_expr items.now))) result }
{
    let ty = type_at(alloc, context, env, None, items)?;
    refuse(has_none(&ty), Rule::NoneUse, items.place)?;
    match element_of(&ty) {
        Some(element) => Ok(element.try_clone(alloc)?),
        None => Err(told(Rule::Operand, items.place)),
    }
}

/// The type of what a `for` goes over, item by item.
#[tactic(auto, unfolding(py_tree::specs::Flow::item_of))]
pub fn item_of(
    alloc: Global,
    context: &Context<'_>,
    env: &FlowEnv,
    over: &Over,
) -> Result<Ty, RuleError>
    ensures { Types plain_ty (spec.item_of (seen_at context.now env.now) (plain_locals env.now.locals) (plain_over over.now)) result }
{
    match over {
        Over::Items(items) => item_in(alloc, context, env, items),
        Over::Range(None, end) => number_at(alloc, context, env, end),
        Over::Range(Some(start), end) => {
            number_at(alloc, context, env, start)?;
            number_at(alloc, context, env, end)
        }
    }
}

/// The result type of the method, which `__init__` hasn't.
#[tactic(auto, unfolding(py_tree::specs::Flow::result_at))]
pub fn result_at<'a>(context: &Context<'a>, env: &FlowEnv) -> Option<&'a Ty>
    ensures { unwrap_or (plain_wanted result) TNil ≡ spec.result_at (seen_at context.now env.now) }
{
    let table = context.tables.get(env.class as usize)?;
    let number = env.method?;
    let method = table.methods.get(number as usize)?;
    Some(&method.result)
}

/// The rules of `return`, which gives None.
#[tactic(auto, using(py_tree::proofs::Views::ty_views), unfolding(py_tree::specs::Flow::return_fault))]
fn check_nothing(wanted: &Ty, place: Place) -> Result<(), RuleError>
    ensures { Finds (broken Mismatch place (not (assigns TNil (plain_ty wanted.now)))) result }
{
    refuse(!assignable(&Ty::Nil, wanted), Rule::Mismatch, place)
}

/// The rules of `return`, which gives None, and of `return e`.
#[tactic(auto, using(py_tree::proofs::Views::ty_views), unfolding(py_tree::specs::Flow::return_fault))]
pub fn check_return(
    alloc: Global,
    context: &Context<'_>,
    env: &FlowEnv,
    place: Place,
    value: &Option<Expr>,
) -> Result<(), RuleError>
    ensures { Finds (spec.return_fault (seen_at context.now env.now) (plain_locals env.now.locals) place (plain_option plain_expr value.now)) result }
{
    let nothing = Ty::Nil;
    let wanted = result_at(context, env).unwrap_or(&nothing);
    match value {
        None => check_nothing(wanted, place),
        Some(value) => {
            value_as(alloc, context, env, wanted, value)?;
            Ok(())
        }
    }
}

/// The rules of the message of a `raise` or an `assert`.
#[tactic(auto, using(py_tree::proofs::TypeRules::place_rules), unfolding(py_tree::specs::Flow::message_fault))]
pub fn check_message(
    alloc: Global,
    context: &Context<'_>,
    env: &FlowEnv,
    message: &Option<Expr>,
) -> Result<(), RuleError>
    ensures { Finds (spec.message_fault (seen_at context.now env.now) (plain_locals env.now.locals) (plain_option plain_expr message.now)) result }
{
    match message {
        None => Ok(()),
        Some(message) => {
            let ty = type_at(alloc, context, env, None, message)?;
            refuse(!is_str(&ty), Rule::Mismatch, message.place)
        }
    }
}
