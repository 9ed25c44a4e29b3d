//! Values that code reads where they stand, without a copy.

ghost use Rattle.std.specs.Prelude.{◌≡◌, ℕ, List, [], IfSome, unwrap_or};
ghost use Rattle.std.specs.Option.{option_copied};
ghost use Rattle.sf_value.specs.declared.value.Value.TheVariants as value;
ghost use Rattle.py_tree.specs.PlainExpressions.{plain_expr, plain_exprs, exprs_of};
ghost use Rattle.program_meaning.specs.declared.vars.Var.{Var};
ghost use Rattle.program_meaning.specs.World.{World, told};
ghost use Rattle.program_meaning.specs.Operations.{weighed, int_of, items_of, element};
ghost use Rattle.program_meaning.specs.Evaluation.{Site as CodeSite, eval, eval_all, own_field};
ghost use Rattle.source_meaning.specs.Agrees.{AgreesIn, Tells};
ghost use Rattle.source_meaning.specs.InPlace.{Passes, length_in, applied_to};
ghost use Rattle.source_meaning.specs.Sites.{site_of};
ghost use Rattle.source_meaning.specs.Transactions.{world_of};

use crate::Stop;
use crate::operations::{check_weight, element_copy, size};
use crate::site::Site;
use crate::transaction::Transaction;
use crate::vars::{field, local};
use program_meaning::Vars;
use py_tree::{Expr, ExprKind, Function, Name, function_of};
use sf_value::Value;
use std::alloc::Global;

/// The value of an own field, where there is one.
pub(crate) fn own_value<'a>(
    site: &'a Site<'_>,
    name: Name,
    tx: &'a Transaction,
) -> Option<&'a Value>
    ensures { unwrap_or (option_copied result) value.Nil ≡ own_field (site_of site.now) name.0 (world_of site.now.state.now tx.now) }
{
    let fields = tx.record(site.state, site.me)?;
    field(site.fields, fields, name)
}

/// Tests the weight of an own field.
pub(crate) fn check_own_weight(site: &Site<'_>, name: Name, tx: &Transaction) -> Result<(), Stop>
    ensures { Passes result (own_field (site_of site.now) name.0 (world_of site.now.state.now tx.now)) }
{
    match own_value(site, name, tx) {
        Some(value) => check_weight(site.alloc, value),
        None => check_weight(site.alloc, &Value::Nil),
    }
}

/// A copy of an element of the list that is an own field.
pub(crate) fn own_element_copy(
    site: &Site<'_>,
    name: Name,
    index: &Value,
    tx: &Transaction,
) -> Result<Value, Stop>
    ensures { Tells result (element (items_of (own_field (site_of site.now) name.0 (world_of site.now.state.now tx.now))) (int_of index.now)) }
{
    match own_value(site, name, tx) {
        Some(list) => element_copy(site.alloc, list, index),
        None => element_copy(site.alloc, &Value::Nil, index),
    }
}

/// The value of an expression that is a local.
#[tactic(auto, using(program_meaning::proofs::EvalLaws::eval_is))]
pub(crate) fn local_in_place<'a>(expr: &Expr, vars: &'a Vars) -> Option<&'a Value>
    ensures { (s : CodeSite World) (w : World) (n : ℕ) → IfSome result (λ v. eval s (plain_expr expr.now) vars.now w n ≡ told (weighed v.now) w n) }
{
    let ExprKind::Var(name) = &expr.kind else {
        return None;
    };
    local(vars, *name)
}

/// The value of an expression that is an own field.
#[tactic(auto, using(program_meaning::proofs::EvalLaws::eval_is))]
fn field_in_place<'a>(site: &'a Site<'_>, expr: &Expr, tx: &'a Transaction) -> Option<&'a Value>
    ensures { (vars : List Var) (n : ℕ) → IfSome result (λ v. eval (site_of site.now) (plain_expr expr.now) vars (world_of site.now.state.now tx.now) n
        ≡ told (weighed v.now) (world_of site.now.state.now tx.now) n) }
{
    let ExprKind::Attr(_, name) = &expr.kind else {
        return None;
    };
    own_value(site, name.name, tx)
}

/// The value of an expression that is a local or an own field.
fn value_in_place<'a>(
    site: &'a Site<'_>,
    expr: &Expr,
    vars: &'a Vars,
    tx: &'a Transaction,
) -> Option<&'a Value>
    ensures { (n : ℕ) → IfSome result (λ v. eval (site_of site.now) (plain_expr expr.now) vars.now (world_of site.now.state.now tx.now) n
        ≡ told (weighed v.now) (world_of site.now.state.now tx.now) n) }
{
    match local_in_place(expr, vars) {
        Some(value) => Some(value),
        None => field_in_place(site, expr, tx),
    }
}

/// The length of a text or a list.
fn weighed_length(alloc: Global, value: &Value) -> Result<Value, Stop>
    ensures { (w : World) (n : ℕ) → AgreesIn result w n (length_in (told (weighed value.now) w n)) }
{
    check_weight(alloc, value)?;
    Ok(Value::Int(size(value)))
}

/// `len(x)` of a local or an own field.
pub(crate) fn own_length(
    site: &Site<'_>,
    name: Name,
    args: &[Expr],
    vars: &Vars,
    tx: &Transaction,
) -> Option<Result<Value, Stop>>
    ensures { (n : ℕ) → IfSome result (λ given. AgreesIn given (world_of site.now.state.now tx.now) n
        (applied_to (site_of site.now) name.0 (eval_all (site_of site.now) (exprs_of (plain_exprs args.now)) [] vars.now
        (world_of site.now.state.now tx.now) n))) }
{
    let Some(Function::Length) = function_of(name) else {
        return None;
    };
    let [arg] = args else {
        return None;
    };
    let value = value_in_place(site, arg, vars, tx)?;
    Some(weighed_length(site.alloc, value))
}
