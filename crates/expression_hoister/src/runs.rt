//! Runs of operators, link by link.

ghost use Rattle.std.specs.Prelude.{◌≡◌, IfOk};
ghost use Rattle.py_tree.specs.PlainExpressions.{plain_expr, plain_link, plain_links};
ghost use Rattle.hoisting.specs.HoistExpressions as spec;
ghost use Rattle.hoisting.specs.Views.{hoisted_at};
ghost use Rattle.expression_hoister.specs.ExpressionViews as gives;
ghost use Rattle.expression_hoister.specs.ExpressionViews.{run_at};

use flat_tree::FlatStmts;
use hoisting::Stage;
use hoisting::parts::{Hoisted, settle};
use py_tree::nodes::chain;
use py_tree::{Expr, Link, Links, Place, Ty};
use sf_list::{Sequence, TryClone};
use std::alloc::{AllocError, Global};

/// A run so far.
#[derive(Drop)]
pub struct Run {
    pub before: FlatStmts,
    /// It is one operand, which gives the same from then on.
    pub lasting: bool,
    pub left: Expr,
    /// The links behind the operand.
    pub links: Links,
}

/// A run that begins with an operand.
pub fn run_of(alloc: Global, stage: &Stage, lasting: bool, first: Hoisted) -> Run
    ensures { run_at result stage.now ≡ spec.chain_of lasting (hoisted_at first stage.now) }
{
    Run {
        before: first.before,
        lasting,
        left: first.rest,
        links: Sequence::new(alloc),
    }
}

/// An operand with the links behind it.
fn chained(alloc: Global, place: Place, left: Expr, links: Links) -> Result<Expr, AllocError>
    ensures { IfOk result (λ made. plain_expr made ≡ spec.chain place (plain_expr left) (plain_links links)) }
{
    if links.is_empty() {
        drop(links);
        return Ok(left);
    }
    chain(alloc, place, left, links)
}

/// A run so far, as an expression.
pub fn so_far(alloc: Global, stage: &Stage, place: Place, run: Run) -> Result<Hoisted, AllocError>
    ensures { IfOk result (λ made. hoisted_at made stage.now ≡ spec.so_far place (run_at run stage.now)) }
{
    let rest = chained(alloc, place, run.left, run.links)?;
    Ok(Hoisted {
        before: run.before,
        rest,
    })
}

/// A copy of a link.
fn copy_link(alloc: Global, link: &Link) -> Result<Link, AllocError>
    ensures { IfOk result (λ made. plain_link made ≡ plain_link link.now) }
{
    Ok(Link {
        op: link.op,
        place: link.place,
        right: link.right.try_clone(alloc)?,
    })
}

/// One more link, of which nothing suspends.
pub fn add_link(alloc: Global, stage: &Stage, run: Run, link: &Link) -> Result<Run, AllocError>
    ensures { IfOk result (λ made. run_at made stage.now ≡ spec.linked_on (run_at run stage.now) (plain_link link.now)) }
{
    let mut links = run.links;
    links.push(alloc, copy_link(alloc, link)?)?;
    Ok(Run {
        before: run.before,
        lasting: false,
        left: run.left,
        links,
    })
}

/// The run so far where a link behind it suspends.
pub fn settle_run(
    alloc: Global,
    stage: &mut Stage,
    place: Place,
    ty: &Ty,
    run: Run,
) -> Result<Hoisted, AllocError>
    ensures { IfOk result (λ made. hoisted_at made stage.new ≡ gives.settled_run place ty.now run stage.old) }
{
    let lasting = run.lasting;
    let left = so_far(alloc, stage, place, run)?;
    if lasting {
        return Ok(left);
    }
    let ty = ty.try_clone(alloc)?;
    settle(alloc, stage, place, ty, left)
}

/// The run so far, and a link behind it whose right side was hoisted.
pub fn begin_anew(
    alloc: Global,
    stage: &Stage,
    left: Hoisted,
    link: &Link,
    right: Hoisted,
) -> Result<Run, AllocError>
    ensures { IfOk result (λ made. run_at made stage.now ≡ gives.anew_at left link.now right stage.now) }
{
    let mut before = left.before;
    before.append(alloc, right.before)?;
    let mut links = Sequence::new(alloc);
    let last = Link {
        op: link.op,
        place: link.place,
        right: right.rest,
    };
    links.push(alloc, last)?;
    Ok(Run {
        before,
        lasting: false,
        left: left.rest,
        links,
    })
}
