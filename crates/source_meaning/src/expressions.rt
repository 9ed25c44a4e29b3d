//! The direct interpreter: expressions.

ghost use Rattle.std.specs.Prelude.{◌≡◌, true, Some, []};
ghost use Rattle.py_tree.specs.PlainExpressions.{plain_expr};
ghost use Rattle.program_meaning.specs.Purity.{is_pure as the_is_pure};
ghost use Rattle.source_meaning.specs.Sites.{site_of};
ghost use Rattle.program_meaning.specs.Trailers.{last_trailer as the_last_trailer, followed};
ghost use Rattle.source_meaning.specs.TrailerViews.{plain_trailer};
ghost use Rattle.source_meaning.specs.Walks.{Agrees, value_of, values_of, linked_by, own_read, called_with, element_from, indexed, listed, negated, numbered, inverted, compared_to_none, compared, linked_to, chosen, all_are};

use crate::Stop;
use crate::calls::{application, call};
use crate::direct::{read_field, read_literal, read_self, read_variable};
use crate::in_place::{check_own_weight, local_in_place, own_element_copy};
use crate::operations::{
    check_weight, element_copy, negate, take_both, take_comparison, take_nil, take_number,
    take_truth, weigh,
};
use crate::purity::is_pure;
use crate::run::{NESTING_LIMIT, Run};
use crate::site::Site;
use crate::trailers::{Chain, Trailer, chain_of, last_trailer};
use program_meaning::Vars;
use py_tree::{Cmp, Expr, ExprKind, Link, Name};
use sf_list::Sequence;
use sf_value::{Value, Values};

/// The value of an expression, where the stack has room for it.
#[cycle(walk)]
#[inline(never)]
pub(crate) fn evaluate(
    site: &Site<'_>,
    expr: &Expr,
    vars: &Vars,
    run: &mut Run,
) -> Result<Value, Stop>
    ensures { Agrees result site.now run.old run.new (value_of site.now expr.now vars.now) }
{
    let nesting = run.nesting;
    if nesting >= NESTING_LIMIT {
        return Err(Stop::NoMemory);
    }
    run.nesting = nesting + 1;
    let given = evaluate_form(site, expr, vars, run);
    run.nesting = nesting;
    given
}

/// The value of an expression by its form.
#[cycle(walk)]
#[tactic(auto, using(program_meaning::proofs::EvalLaws::eval_is, py_tree::proofs::Sizes::expr_sizes))]
fn evaluate_form(site: &Site<'_>, expr: &Expr, vars: &Vars, run: &mut Run) -> Result<Value, Stop>
    ensures { Agrees result site.now run.old run.new (value_of site.now expr.now vars.now) }
{
    match &expr.kind {
        ExprKind::Int(n) => Ok(Value::Int(*n)),
        ExprKind::Bool(truth) => Ok(Value::Bool(*truth)),
        ExprKind::Str(name) => read_literal(site, *name),
        ExprKind::Nil => Ok(Value::Nil),
        ExprKind::Var(name) => read_variable(site, vars, *name),
        ExprKind::SelfRef => read_self(site),
        ExprKind::Attr(_, name) => read_field(site, name.name, &run.tx),
        ExprKind::Call(on, name, args) => {
            let last = Trailer::Call(name.name, args.as_slice());
            chain(site, expr, on, last, vars, run)
        }
        ExprKind::Apply(name, args) => application(site, *name, args.as_slice(), vars, run),
        ExprKind::Index(on, index) => match last_trailer(expr) {
            Some((on, last)) => chain(site, expr, on, last, vars, run),
            None => element(site, on, index, vars, run),
        },
        ExprKind::List(items) => list(site, items.as_slice(), vars, run),
        ExprKind::Neg(a) => negation(site, a, vars, run),
        ExprKind::Pos(a) => plus_sign(site, a, vars, run),
        ExprKind::Not(a) => inversion(site, a, vars, run),
        ExprKind::Chain(first, links) => operators(site, first, links.as_slice(), vars, run),
        ExprKind::And(items) => each_is(site, true, items.as_slice(), vars, run),
        ExprKind::Or(items) => each_is(site, false, items.as_slice(), vars, run),
        ExprKind::Compare(op, _, left, right) => comparison(site, *op, left, right, vars, run),
        ExprKind::IsNone(a, positive) => none_test(site, a, *positive, vars, run),
        ExprKind::Cond { test, yes, no } => conditional(site, test, yes, no, vars, run),
    }
}

/// A chain of receivers: the value of the innermost, and then trailer after trailer.
#[cycle(walk)]
#[inline(never)]
fn chain(
    site: &Site<'_>,
    expr: &Expr,
    on: &Expr,
    last: Trailer<'_>,
    vars: &Vars,
    run: &mut Run,
) -> Result<Value, Stop>
    requires { the_last_trailer (plain_expr expr.now) ≡ Some (plain_expr on.now, plain_trailer last) }
    ensures { Agrees result site.now run.old run.new (value_of site.now expr.now vars.now) }
{
    let whole = chain_of(site.alloc, expr, on, last)?;
    let Chain {
        innermost,
        mut trailers,
    } = whole;
    let mut value = evaluate(site, innermost, vars, run)?;
    while let Some(trailer) = trailers.pop() {
        value = follow(site, value, trailer, vars, run)?;
    }
    Ok(value)
}

/// What a trailer makes of the value of its receiver.
#[cycle(walk)]
#[tactic(auto, unfolding(program_meaning::specs::Trailers::followed))]
fn follow(
    site: &Site<'_>,
    on: Value,
    trailer: Trailer<'_>,
    vars: &Vars,
    run: &mut Run,
) -> Result<Value, Stop>
    ensures { Agrees result site.now run.old run.new (followed (site_of site.now) (plain_trailer trailer.entry) vars.now on) }
{
    match trailer {
        Trailer::Call(name, args) => {
            let given = call_with(site, &on, name, args, vars, run);
            drop(on);
            given
        }
        Trailer::Index(index) => {
            let given = element_of(site, &on, index, vars, run);
            drop(on);
            given
        }
    }
}

/// Calls a method of the entity that a value is with what these expressions give.
#[cycle(walk)]
#[inline(never)]
fn call_with(
    site: &Site<'_>,
    on: &Value,
    name: Name,
    args: &[Expr],
    vars: &Vars,
    run: &mut Run,
) -> Result<Value, Stop>
    ensures { Agrees result site.now run.old run.new (called_with site.now on.now name.0 (values_of site.now args.now [] vars.now)) }
{
    let args = evaluate_all(site, args, vars, run)?;
    let given = call(site, on, name, &args, run);
    drop(args);
    given
}

/// The element of a list at the place that an expression gives.
#[cycle(walk)]
#[inline(never)]
fn element_of(
    site: &Site<'_>,
    list: &Value,
    index: &Expr,
    vars: &Vars,
    run: &mut Run,
) -> Result<Value, Stop>
    ensures { Agrees result site.now run.old run.new (element_from list.now (value_of site.now index.now vars.now)) }
{
    let at = evaluate(site, index, vars, run)?;
    let item = element_copy(site.alloc, list, &at);
    drop(at);
    item
}

/// `on[index]`, where the list is a local or an own field. Of a local, and of a field while the index
/// calls no method and creates nothing, the element alone is copied.
#[cycle(walk)]
#[tactic(auto, using(program_meaning::proofs::EvalLaws::eval_is))]
#[inline(never)]
fn element(
    site: &Site<'_>,
    on: &Expr,
    index: &Expr,
    vars: &Vars,
    run: &mut Run,
) -> Result<Value, Stop>
    ensures { Agrees result site.now run.old run.new (indexed (value_of site.now on.now vars.now) (value_of site.now index.now vars.now)) }
{
    if let Some(list) = local_in_place(on, vars) {
        check_weight(site.alloc, list)?;
        return element_of(site, list, index, vars, run);
    }
    if let ExprKind::Attr(_, field) = &on.kind {
        if is_pure(index) {
            return own_element(site, field.name, index, vars, run);
        }
    }
    element_of_copy(site, on, index, vars, run)
}

/// `on[index]`, where the list is copied first.
#[cycle(walk)]
#[inline(never)]
fn element_of_copy(
    site: &Site<'_>,
    on: &Expr,
    index: &Expr,
    vars: &Vars,
    run: &mut Run,
) -> Result<Value, Stop>
    ensures { Agrees result site.now run.old run.new (indexed (value_of site.now on.now vars.now) (value_of site.now index.now vars.now)) }
{
    let list = evaluate(site, on, vars, run)?;
    let item = element_of(site, &list, index, vars, run);
    drop(list);
    item
}

/// `self.name[index]`, where the index changes nothing.
#[cycle(walk)]
#[inline(never)]
fn own_element(
    site: &Site<'_>,
    name: Name,
    index: &Expr,
    vars: &Vars,
    run: &mut Run,
) -> Result<Value, Stop>
    requires { the_is_pure (plain_expr index.now) ≡ true }
    ensures { Agrees result site.now run.old run.new (indexed (own_read site.now name.0) (value_of site.now index.now vars.now)) }
{
    check_own_weight(site, name, &run.tx)?;
    let at = evaluate(site, index, vars, run)?;
    let item = own_element_copy(site, name, &at, &run.tx);
    drop(at);
    item
}

/// The values of expressions in their order.
#[cycle(walk)]
#[inline(never)]
pub(crate) fn evaluate_all(
    site: &Site<'_>,
    exprs: &[Expr],
    vars: &Vars,
    run: &mut Run,
) -> Result<Values, Stop>
    ensures { Agrees result site.now run.old run.new (values_of site.now exprs.now [] vars.now) }
{
    let mut values = Sequence::new(site.alloc);
    for expr in exprs {
        let value = evaluate(site, expr, vars, run)?;
        values.push(site.alloc, value)?;
    }
    Ok(values)
}

/// A list of what expressions give.
#[cycle(walk)]
#[inline(never)]
fn list(site: &Site<'_>, items: &[Expr], vars: &Vars, run: &mut Run) -> Result<Value, Stop>
    ensures { Agrees result site.now run.old run.new (listed (values_of site.now items.now [] vars.now)) }
{
    let items = evaluate_all(site, items, vars, run)?;
    weigh(site.alloc, Value::List(items))
}

/// `-a`.
#[cycle(walk)]
#[inline(never)]
fn negation(site: &Site<'_>, a: &Expr, vars: &Vars, run: &mut Run) -> Result<Value, Stop>
    ensures { Agrees result site.now run.old run.new (negated (value_of site.now a.now vars.now)) }
{
    negate(site.alloc, evaluate(site, a, vars, run)?)
}

/// `+a`.
#[cycle(walk)]
#[inline(never)]
fn plus_sign(site: &Site<'_>, a: &Expr, vars: &Vars, run: &mut Run) -> Result<Value, Stop>
    ensures { Agrees result site.now run.old run.new (numbered (value_of site.now a.now vars.now)) }
{
    Ok(Value::Int(take_number(evaluate(site, a, vars, run)?)))
}

/// `not a`.
#[cycle(walk)]
#[inline(never)]
fn inversion(site: &Site<'_>, a: &Expr, vars: &Vars, run: &mut Run) -> Result<Value, Stop>
    ensures { Agrees result site.now run.old run.new (inverted (value_of site.now a.now vars.now)) }
{
    Ok(Value::Bool(!take_truth(evaluate(site, a, vars, run)?)))
}

/// `a is None`, or `a is not None`.
#[cycle(walk)]
#[inline(never)]
fn none_test(
    site: &Site<'_>,
    a: &Expr,
    positive: bool,
    vars: &Vars,
    run: &mut Run,
) -> Result<Value, Stop>
    ensures { Agrees result site.now run.old run.new (compared_to_none positive (value_of site.now a.now vars.now)) }
{
    let nil = take_nil(evaluate(site, a, vars, run)?);
    Ok(Value::Bool(if positive { nil } else { !nil }))
}

/// `left op right`, a comparison.
#[cycle(walk)]
#[inline(never)]
fn comparison(
    site: &Site<'_>,
    op: Cmp,
    left: &Expr,
    right: &Expr,
    vars: &Vars,
    run: &mut Run,
) -> Result<Value, Stop>
    ensures { Agrees result site.now run.old run.new (compared op (value_of site.now left.now vars.now) (value_of site.now right.now vars.now)) }
{
    let x = evaluate(site, left, vars, run)?;
    let y = evaluate(site, right, vars, run)?;
    Ok(Value::Bool(take_comparison(op, x, y)))
}

/// `yes if test else no`.
#[cycle(walk)]
#[inline(never)]
fn conditional(
    site: &Site<'_>,
    test: &Expr,
    yes: &Expr,
    no: &Expr,
    vars: &Vars,
    run: &mut Run,
) -> Result<Value, Stop>
    ensures { Agrees result site.now run.old run.new (chosen site.now test.now yes.now no.now vars.now) }
{
    if take_truth(evaluate(site, test, vars, run)?) {
        evaluate(site, yes, vars, run)
    } else {
        evaluate(site, no, vars, run)
    }
}

/// A run of operators of one rank, from its first operand on.
#[cycle(walk)]
#[inline(never)]
fn operators(
    site: &Site<'_>,
    first: &Expr,
    links: &[Link],
    vars: &Vars,
    run: &mut Run,
) -> Result<Value, Stop>
    ensures { Agrees result site.now run.old run.new (linked_to (value_of site.now first.now vars.now) (λ v. linked_by site.now links.now v vars.now)) }
{
    let value = evaluate(site, first, vars, run)?;
    link(site, value, links, vars, run)
}

/// Combines a value with each link in turn.
#[cycle(walk)]
fn link(
    site: &Site<'_>,
    first: Value,
    links: &[Link],
    vars: &Vars,
    run: &mut Run,
) -> Result<Value, Stop>
    ensures { Agrees result site.now run.old run.new (linked_by site.now links.now first vars.now) }
{
    let mut value = first;
    for link in links {
        let right = evaluate(site, &link.right, vars, run)?;
        value = take_both(site.alloc, link.op, value, right)?;
    }
    Ok(value)
}

/// Whether each operand is True, or each is False: the first other one decides.
#[cycle(walk)]
#[inline(never)]
fn each_is(
    site: &Site<'_>,
    truth: bool,
    operands: &[Expr],
    vars: &Vars,
    run: &mut Run,
) -> Result<Value, Stop>
    ensures { Agrees result site.now run.old run.new (all_are site.now truth operands.now vars.now) }
{
    for operand in operands {
        if take_truth(evaluate(site, operand, vars, run)?) != truth {
            return Ok(Value::Bool(!truth));
        }
    }
    Ok(Value::Bool(truth))
}
