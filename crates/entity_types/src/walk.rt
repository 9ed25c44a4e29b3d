//! The walk over an expression: parts in the order of evaluation, each with what is wanted of it.

ghost use Rattle.std.specs.Prelude.{◌≡◌, ◌==◌, true, false, not, map, length, option_map, Some, None, Ok};
ghost use Rattle.py_tree.specs.declared.rule.Rule.TheVariants.{ArgCount, UnknownName};
ghost use Rattle.py_tree.specs.PlainTypes.{plain_ty, TBool, TEntity};
ghost use Rattle.py_tree.specs.PlainExpressions.{PCall, PApply, PIndex, PCond, plain_expr, plain_exprs, exprs_of, plain_links, links_of};
ghost use Rattle.py_tree.specs.FlowEnvironment.{where_test};
ghost use Rattle.py_tree.specs.ExpressionTypes as spec;
ghost use Rattle.entity_tables.specs.Views.{plain_sig_param, plain_tables};
ghost use Rattle.entity_types.specs.Answers.{Types, Checks};
ghost use Rattle.py_tree.specs.Functions.{plain_function};
ghost use Rattle.entity_types.specs.Functions.{asked, given as the_given};
ghost use Rattle.entity_types.specs.Scopes.{plain_scope};
ghost use Rattle.entity_types.specs.Views.{plain_wanted};

use crate::calls::{attribute, called, indexed};
use crate::fault::{refuse, told};
use crate::functions::{count_asked, given};
use crate::known::{copy_scope, narrow_scope, variable_ty};
use crate::lookup::{self_ty, table_named};
use crate::operators::{check_asked, check_condition, combined, comparison, signed};
use crate::scope::Scope;
use crate::types::{assignable, element_wanted, is_int, join, list_of, right_wanted};
use entity_tables::{ClassTable, RuleError, SigParam};
use py_tree::{Expr, ExprKind, Function, Link, Name, Place, PlacedName, Rule, Ty, function_of};
use sf_list::TryClone;
use std::alloc::Global;

/// The type of an expression within a scope, or the first rule that it breaks.
#[cycle(walk)]
#[tactic(auto, using(py_tree::proofs::TypeRules::type_rules, py_tree::proofs::Views::ty_views, crate::proofs::ScopeLaws::scope_class, py_tree::proofs::Sizes::expr_sizes))]
pub fn type_in(
    alloc: Global,
    tables: &[ClassTable],
    scope: &Scope<'_>,
    wanted: Option<&Ty>,
    expr: &Expr,
) -> Result<Ty, RuleError>
    ensures { Types plain_ty (spec.type_of (plain_tables tables.now) (plain_scope scope.now) (plain_wanted wanted.entry) (plain_expr expr.now)) result }
{
    match &expr.kind {
        ExprKind::Int(_) => Ok(Ty::Int),
        ExprKind::Bool(_) => Ok(Ty::Bool),
        ExprKind::Str(_) => Ok(Ty::Str),
        ExprKind::Nil => Ok(Ty::Nil),
        ExprKind::Var(name) => variable_ty(alloc, scope, expr.place, *name),
        ExprKind::SelfRef => Ok(self_ty(tables, scope.env.class)),
        ExprKind::Attr(on, name) => attribute(alloc, tables, scope.env.class, on, *name),
        ExprKind::Call(on, name, args) => {
            call_in(alloc, tables, scope, on, *name, args.as_slice())
        }
        ExprKind::Apply(name, args) => {
            apply_in(alloc, tables, scope, expr.place, *name, args.as_slice())
        }
        ExprKind::Index(on, index) => index_in(alloc, tables, scope, on, index),
        ExprKind::List(items) => {
            let element = element_wanted(wanted);
            list_in(alloc, tables, scope, element, expr.place, items.as_slice())
        }
        ExprKind::Neg(a) | ExprKind::Pos(a) => {
            let ty = type_in(alloc, tables, scope, None, a)?;
            signed(a.place, &ty)
        }
        ExprKind::Not(a) => {
            condition_in(alloc, tables, scope, a)?;
            Ok(Ty::Bool)
        }
        ExprKind::Chain(first, links) => {
            let left = type_in(alloc, tables, scope, None, first)?;
            chain_in(alloc, tables, scope, left, links.as_slice())
        }
        ExprKind::And(items) => conditions_in(alloc, tables, scope, true, items.as_slice()),
        ExprKind::Or(items) => conditions_in(alloc, tables, scope, false, items.as_slice()),
        ExprKind::Compare(op, at, left, right) => {
            let s = type_in(alloc, tables, scope, None, left)?;
            let t = type_in(alloc, tables, scope, None, right)?;
            comparison(*op, *at, right.place, &s, &t)
        }
        ExprKind::IsNone(a, _) => {
            type_in(alloc, tables, scope, None, a)?;
            Ok(Ty::Bool)
        }
        ExprKind::Cond { test, yes, no } => {
            choice_in(alloc, tables, scope, wanted, test, yes, no)
        }
    }
}

/// That an operand of `not`, `and` or `or`, or a test, is bool.
#[cycle(walk)]
#[tactic(auto, unfolding(py_tree::specs::ExpressionTypes::as_condition))]
pub fn condition_in(
    alloc: Global,
    tables: &[ClassTable],
    scope: &Scope<'_>,
    test: &Expr,
) -> Result<(), RuleError>
    ensures { Checks (spec.as_condition test.now.place (spec.type_of (plain_tables tables.now) (plain_scope scope.now) None (plain_expr test.now))) result }
{
    let ty = type_in(alloc, tables, scope, None, test)?;
    check_condition(test.place, &ty)
}

/// The type of `and` or `or`: each operand is typed where those before it are all True, or all False.
#[cycle(walk)]
#[tactic(auto, using(crate::proofs::WalkLaws::condition_laws, py_tree::proofs::Views::ty_views))]
fn conditions_in(
    alloc: Global,
    tables: &[ClassTable],
    scope: &Scope<'_>,
    truth: bool,
    operands: &[Expr],
) -> Result<Ty, RuleError>
    ensures { Types plain_ty (spec.conditions (plain_tables tables.now) (plain_scope scope.now) truth (exprs_of (plain_exprs operands.now))) result }
{
    let mut known = copy_scope(alloc, scope)?;
    for operand in operands {
        condition_in(alloc, tables, &known, operand)?;
        narrow_scope(&mut known, operand, truth);
    }
    Ok(Ty::Bool)
}

/// That a value stands where this type is asked.
#[cycle(walk)]
fn value_in(
    alloc: Global,
    tables: &[ClassTable],
    scope: &Scope<'_>,
    asked: &Ty,
    expr: &Expr,
) -> Result<(), RuleError>
    ensures { Checks (spec.with_found (spec.type_of (plain_tables tables.now) (plain_scope scope.now) (Some (plain_ty asked.now)) (plain_expr expr.now))
        (λ t. spec.fits t (plain_ty asked.now) expr.now.place (Ok TBool))) result }
{
    let ty = type_in(alloc, tables, scope, Some(asked), expr)?;
    refuse(!assignable(&ty, asked), Rule::Mismatch, expr.place)
}

/// The type that a call has whose arguments fit.
#[cycle(walk)]
#[tactic(auto, using(crate::proofs::WalkLaws::argument_laws))]
fn arguments_in(
    alloc: Global,
    tables: &[ClassTable],
    scope: &Scope<'_>,
    args: &[Expr],
    params: &[SigParam],
    gives: &Ty,
) -> Result<Ty, RuleError>
    ensures { Types plain_ty (spec.arguments (plain_tables tables.now) (plain_scope scope.now) (exprs_of (plain_exprs args.now))
        (map plain_sig_param params.now) (plain_ty gives.now)) result }
{
    let count = args.len().min(params.len());
    for i in 0..count {
        value_in(alloc, tables, scope, &params[i].ty, &args[i])?;
    }
    Ok(gives.try_clone(alloc)?)
}

/// The type of a call of a method.
#[cycle(walk)]
#[tactic(auto, using(crate::proofs::WalkLaws::call_laws))]
fn call_in(
    alloc: Global,
    tables: &[ClassTable],
    scope: &Scope<'_>,
    on: &Expr,
    name: PlacedName,
    args: &[Expr],
) -> Result<Ty, RuleError>
    ensures { Types plain_ty (spec.type_of (plain_tables tables.now) (plain_scope scope.now) None
        (PCall on.now.place (plain_expr on.now) name.name.0 name.place (exprs_of (plain_exprs args.now)))) result }
{
    let receiver = type_in(alloc, tables, scope, None, on)?;
    let method = called(tables, on.place, &receiver, name, args.len())?;
    arguments_in(
        alloc,
        tables,
        scope,
        args,
        method.params.as_slice(),
        &method.result,
    )
}

/// The type of a call of a function, or of a creation.
#[cycle(walk)]
#[tactic(auto, using(crate::proofs::WalkLaws::apply_laws))]
fn apply_in(
    alloc: Global,
    tables: &[ClassTable],
    scope: &Scope<'_>,
    place: Place,
    name: Name,
    args: &[Expr],
) -> Result<Ty, RuleError>
    ensures { Types plain_ty (spec.type_of (plain_tables tables.now) (plain_scope scope.now) None (PApply place name.0 (exprs_of (plain_exprs args.now))))
        result }
{
    match function_of(name) {
        None => creation_in(alloc, tables, scope, place, name, args),
        Some(function) => {
            refuse(args.len() != count_asked(function), Rule::ArgCount, place)?;
            each_in(alloc, tables, scope, function, args)
        }
    }
}

/// The type of a creation.
#[cycle(walk)]
#[tactic(auto, using(py_tree::proofs::Views::ty_views))]
fn creation_in(
    alloc: Global,
    tables: &[ClassTable],
    scope: &Scope<'_>,
    place: Place,
    class: Name,
    args: &[Expr],
) -> Result<Ty, RuleError>
    ensures { Types plain_ty (spec.needs (spec.table_named (plain_tables tables.now) class.0) UnknownName place
        (λ c. spec.refuse_if (not (length args.now == length c.init)) ArgCount place
        (spec.arguments (plain_tables tables.now) (plain_scope scope.now) (exprs_of (plain_exprs args.now)) c.init (TEntity c.name)))) result }
{
    let Some(table) = table_named(tables, class) else {
        return Err(told(Rule::UnknownName, place));
    };
    refuse(args.len() != table.init.len(), Rule::ArgCount, place)?;
    let gives = Ty::Entity(table.name);
    arguments_in(alloc, tables, scope, args, table.init.as_slice(), &gives)
}

/// The type that a function gives whose arguments it takes.
#[cycle(walk)]
#[tactic(auto, using(crate::proofs::WalkLaws::each_laws))]
fn each_in(
    alloc: Global,
    tables: &[ClassTable],
    scope: &Scope<'_>,
    function: Function,
    args: &[Expr],
) -> Result<Ty, RuleError>
    ensures { Types plain_ty (spec.each_is (asked (plain_function function)) (plain_tables tables.now) (plain_scope scope.now)
        (exprs_of (plain_exprs args.now)) (the_given (plain_function function))) result }
{
    for arg in args {
        let ty = type_in(alloc, tables, scope, None, arg)?;
        check_asked(function, arg.place, &ty)?;
    }
    Ok(given(function))
}

/// The type of `e[i]`.
#[cycle(walk)]
#[tactic(auto, using(crate::proofs::WalkLaws::index_laws))]
fn index_in(
    alloc: Global,
    tables: &[ClassTable],
    scope: &Scope<'_>,
    on: &Expr,
    index: &Expr,
) -> Result<Ty, RuleError>
    ensures { Types plain_ty (spec.type_of (plain_tables tables.now) (plain_scope scope.now) None
        (PIndex on.now.place (plain_expr on.now) (plain_expr index.now))) result }
{
    let ty = type_in(alloc, tables, scope, None, on)?;
    let element = indexed(on.place, &ty)?;
    let index_ty = type_in(alloc, tables, scope, None, index)?;
    refuse(!is_int(&index_ty), Rule::Operand, index.place)?;
    Ok(element.try_clone(alloc)?)
}

/// The type of a list, of which the element type is wanted, or else that of its first element.
#[cycle(walk)]
#[tactic(auto, using(crate::proofs::WalkLaws::list_laws))]
fn list_in(
    alloc: Global,
    tables: &[ClassTable],
    scope: &Scope<'_>,
    element: Option<&Ty>,
    place: Place,
    items: &[Expr],
) -> Result<Ty, RuleError>
    ensures { Types plain_ty (spec.list_of (plain_tables tables.now) (plain_scope scope.now) (plain_wanted element.entry) place
        (exprs_of (plain_exprs items.now))) result }
{
    if let Some(element) = element {
        return elements_in(alloc, tables, scope, element, items);
    }
    match items {
        [] => Err(told(Rule::EmptyListType, place)),
        [first, more @ ..] => {
            let element = type_in(alloc, tables, scope, None, first)?;
            elements_in(alloc, tables, scope, &element, more)
        }
    }
}

/// The type of a list of elements that fit this type.
#[cycle(walk)]
#[tactic(auto, using(crate::proofs::WalkLaws::element_laws, py_tree::proofs::Views::ty_views))]
fn elements_in(
    alloc: Global,
    tables: &[ClassTable],
    scope: &Scope<'_>,
    element: &Ty,
    items: &[Expr],
) -> Result<Ty, RuleError>
    ensures { Types plain_ty (spec.elements (plain_tables tables.now) (plain_scope scope.now) (plain_ty element.now) (exprs_of (plain_exprs items.now)))
        result }
{
    for item in items {
        value_in(alloc, tables, scope, element, item)?;
    }
    Ok(list_of(alloc, element.try_clone(alloc)?)?)
}

/// The type of a run of operators behind its first operand, which has this type: what stands left
/// of each operator is all before it.
#[cycle(walk)]
#[tactic(auto, using(crate::proofs::WalkLaws::link_laws))]
fn chain_in(
    alloc: Global,
    tables: &[ClassTable],
    scope: &Scope<'_>,
    first: Ty,
    links: &[Link],
) -> Result<Ty, RuleError>
    ensures { Types plain_ty (spec.linked (plain_tables tables.now) (plain_scope scope.now) (plain_ty first) (links_of (plain_links links.now))) result }
{
    let mut left = first;
    for link in links {
        let wanted = right_wanted(link.op, &left);
        let right = type_in(alloc, tables, scope, wanted, &link.right)?;
        left = combined(link.op, link.place, left, &right)?;
    }
    Ok(left)
}

/// The type of a part of a conditional, where its test is True, or where it is False.
#[cycle(walk)]
fn part_in(
    alloc: Global,
    tables: &[ClassTable],
    scope: &Scope<'_>,
    wanted: Option<&Ty>,
    test: &Expr,
    truth: bool,
    part: &Expr,
) -> Result<Ty, RuleError>
    ensures { Types plain_ty (spec.type_of (plain_tables tables.now) (where_test truth (plain_expr test.now) (plain_scope scope.now))
        (plain_wanted wanted.entry) (plain_expr part.now)) result }
{
    let mut known = copy_scope(alloc, scope)?;
    narrow_scope(&mut known, test, truth);
    type_in(alloc, tables, &known, wanted, part)
}

/// The type of a conditional.
#[cycle(walk)]
#[tactic(auto, using(crate::proofs::WalkLaws::choice_laws))]
fn choice_in(
    alloc: Global,
    tables: &[ClassTable],
    scope: &Scope<'_>,
    wanted: Option<&Ty>,
    test: &Expr,
    yes: &Expr,
    no: &Expr,
) -> Result<Ty, RuleError>
    ensures { Types plain_ty (spec.type_of (plain_tables tables.now) (plain_scope scope.now) (plain_wanted wanted.entry)
        (PCond test.now.place (plain_expr test.now) (plain_expr yes.now) (plain_expr no.now))) result }
{
    condition_in(alloc, tables, scope, test)?;
    let s = part_in(alloc, tables, scope, wanted, test, true, yes)?;
    let t = part_in(alloc, tables, scope, wanted, test, false, no)?;
    match join(alloc, s, t)? {
        None => Err(told(Rule::Mismatch, no.place)),
        Some(ty) => Ok(ty),
    }
}
