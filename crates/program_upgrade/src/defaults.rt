//! The values of literals that fields are declared with.

ghost use Rattle.std.specs.Prelude.{◌≡◌, pos, ◌-ℤ◌, [], ◌∷◌, ◌++◌, drop, IfOk, OnOk};
ghost use Rattle.std.specs.Str.{chars};
ghost use Rattle.py_tree.specs.ClassRules.{text_of, body_of};
ghost use Rattle.py_tree.specs.PlainExpressions.{plain_expr, plain_exprs, exprs_of};
ghost use Rattle.py_tree.specs.PlainStatements.{plain_stmt, plain_stmts};
ghost use Rattle.sf_value.specs.declared.value.Value.TheVariants.{Str as AText};
ghost use Rattle.program_meaning.specs.Operations.{in_range};
ghost use Rattle.program_meaning.specs.Sources.{source_of};
ghost use Rattle.program_meaning.specs.ClassTables.{init_of};
ghost use Rattle.program_upgrade.specs.Lent.{exprs_in};
ghost use Rattle.program_upgrade.specs.Defaults as spec;

use py_tree::{Checked, Expr, ExprKind, Exprs, Name, Names, Stmt, declared_by, name_text};
use sf_list::Sequence;
use sf_value::{Text, Value, Values, WEIGHT_LIMIT, weight};
use std::alloc::{AllocError, Global};

/// The number with its sign turned, where there is one.
#[tactic(auto, unfolding(program_meaning::specs::Operations::in_range))]
fn negated(n: i128) -> Option<Value>
    ensures { result ≡ spec.given (in_range (pos 0 -ℤ n)) }
{
    match n.checked_neg() {
        Some(n) => Some(Value::Int(n)),
        None => None,
    }
}

/// What a `-` makes of an expression that is an int.
#[tactic(auto, using(py_tree::proofs::Views::expr_views))]
fn negative(expr: &Expr) -> Option<Value>
    ensures { result ≡ spec.negative (plain_expr expr.now) }
{
    match expr.kind {
        ExprKind::Int(n) => negated(n),
        ExprKind::Bool(_)
        | ExprKind::Str(_)
        | ExprKind::Nil
        | ExprKind::Var(_)
        | ExprKind::SelfRef
        | ExprKind::Attr(..)
        | ExprKind::Call(..)
        | ExprKind::Apply(..)
        | ExprKind::Index(..)
        | ExprKind::List(_)
        | ExprKind::Neg(_)
        | ExprKind::Pos(_)
        | ExprKind::Not(_)
        | ExprKind::Chain(..)
        | ExprKind::And(_)
        | ExprKind::Or(_)
        | ExprKind::Compare(..)
        | ExprKind::IsNone(..)
        | ExprKind::Cond { .. } => None,
    }
}

/// The text that a literal's name stands for, as a value.
fn text_value(alloc: Global, names: &Names, name: Name) -> Result<Value, AllocError>
    ensures { IfOk result (λ v. v ≡ AText (chars (text_of names.now name.0))) }
{
    Ok(Value::Str(Text::of(alloc, name_text(names, name))?))
}

/// The list without elements, where these are none.
fn empty_list(alloc: Global, items: &Exprs) -> Option<Value>
    ensures { result ≡ spec.empty_list (exprs_of (plain_exprs items.now)) }
{
    if items.is_empty() {
        Some(Value::List(Sequence::new(alloc)))
    } else {
        None
    }
}

/// The value of a literal; none where the expression is no literal.
#[tactic(auto, using(py_tree::proofs::Views::expr_views))]
fn literal(alloc: Global, names: &Names, expr: &Expr) -> Result<Option<Value>, AllocError>
    ensures { IfOk result (λ made. made ≡ spec.literal names.now (plain_expr expr.now)) }
{
    match &expr.kind {
        ExprKind::Int(n) => Ok(Some(Value::Int(*n))),
        ExprKind::Neg(number) => Ok(negative(number)),
        ExprKind::Bool(truth) => Ok(Some(Value::Bool(*truth))),
        ExprKind::Str(name) => Ok(Some(text_value(alloc, names, *name)?)),
        ExprKind::Nil => Ok(Some(Value::Nil)),
        ExprKind::List(items) => Ok(empty_list(alloc, items)),
        ExprKind::Var(_)
        | ExprKind::SelfRef
        | ExprKind::Attr(..)
        | ExprKind::Call(..)
        | ExprKind::Apply(..)
        | ExprKind::Index(..)
        | ExprKind::Pos(_)
        | ExprKind::Not(_)
        | ExprKind::Chain(..)
        | ExprKind::And(_)
        | ExprKind::Or(_)
        | ExprKind::Compare(..)
        | ExprKind::IsNone(..)
        | ExprKind::Cond { .. } => Ok(None),
    }
}

/// The value, unless it weighs more than one may.
fn unless_heavy(value: Value) -> Option<Value>
    ensures { result ≡ spec.unless_heavy value }
{
    if weight(&value) <= WEIGHT_LIMIT {
        Some(value)
    } else {
        drop(value);
        None
    }
}

/// The default of a field that is declared with this expression, if it has one.
#[tactic(auto, unfolding(crate::specs::Defaults::default))]
fn default(alloc: Global, names: &Names, expr: &Expr) -> Result<Option<Value>, AllocError>
    ensures { IfOk result (λ made. made ≡ spec.default names.now (plain_expr expr.now)) }
{
    match literal(alloc, names, expr)? {
        Some(value) => Ok(unless_heavy(value)),
        None => Ok(None),
    }
}

/// The defaults by the expressions from a place on, where each gives one.
fn defaults(
    alloc: Global,
    names: &Names,
    exprs: &[&Expr],
    first: usize,
) -> Result<Option<Values>, AllocError>
    ensures { IfOk result (λ made. made ≡ spec.defaults names.now (drop first (exprs_in exprs.now))) }
{
    let mut values = Sequence::new(alloc);
    for i in first..exprs.len() {
        let made = default(alloc, names, exprs[i])?;
        let Some(value) = made else {
            return Ok(None);
        };
        values.push(alloc, value)?;
    }
    Ok(Some(values))
}

/// Adds the expression that a statement declares a field with, where it declares one.
#[tactic(auto, unfolding(crate::specs::Defaults::declared_values))]
fn add_value<'a>(values: &mut Vec<&'a Expr>, stmt: &'a Stmt) -> Result<(), AllocError>
    ensures { OnOk result (exprs_in values.new.items ≡ exprs_in values.old.items ++ spec.declared_values (plain_stmt stmt.now ∷ [])) }
{
    if let Some(found) = declared_by(stmt) {
        values.push(found.value)?;
    }
    Ok(())
}

/// The expressions that statements declare fields with.
#[tactic(auto, using(crate::proofs::DefaultLaws::value_laws))]
fn declared_values<'a>(alloc: Global, body: &'a [Stmt]) -> Result<Vec<&'a Expr>, AllocError>
    ensures { IfOk result (λ made. exprs_in made.items ≡ spec.declared_values (plain_stmts body.now)) }
{
    let mut values = Vec::new(alloc);
    for stmt in body {
        add_value(&mut values, stmt)?;
    }
    Ok(values)
}

/// The statements of the `__init__` of a class.
fn init_body(program: &Checked, class: u32) -> &[Stmt]
    ensures { plain_stmts result.now ≡ body_of (init_of (source_of program.now) class) }
{
    match program.init(class) {
        Some(init) => init.body.as_slice(),
        None => &[],
    }
}

/// The defaults of the fields of a class behind the first so many, where each of them has one.
pub(crate) fn defaults_behind(
    alloc: Global,
    later: &Checked,
    class: u32,
    count: usize,
) -> Result<Option<Values>, AllocError>
    ensures { IfOk result (λ made. made ≡ spec.defaults_behind (source_of later.now) class count) }
{
    let values = declared_values(alloc, init_body(later, class))?;
    defaults(alloc, later.names(), values.as_slice(), count)
}
