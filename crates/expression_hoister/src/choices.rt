//! Tests, and a value that is one of two by a test.

ghost use Rattle.std.specs.Prelude.{◌≡◌, Some, IfOk};
ghost use Rattle.py_tree.specs.PlainTypes.{plain_ty};
ghost use Rattle.py_tree.specs.PlainExpressions.{plain_expr, PBool};
ghost use Rattle.entity_types.specs.Views.{plain_locals};
ghost use Rattle.block_code.specs.PlainVars.{plain_vars};
ghost use Rattle.flat_tree.specs.PlainFlat.{plain_flat_stmt, plain_flat_stmts, plain_flat_arm, plain_flat_test, flat_stmts_of, FIf, FNoArm, FMoreArms, FNot};
ghost use Rattle.hoisting.specs.HoistExpressions as spec;
ghost use Rattle.expression_hoister.specs.Ways as ways;
ghost use Rattle.expression_hoister.specs.Ways.{way_where};
ghost use Rattle.expression_hoister.specs.ExpressionViews as gives;
ghost use Rattle.hoisting.specs.Views.{hoisted_at};
ghost use Rattle.expression_hoister.specs.ExpressionViews.{plain_tested, plain_tested_each, plain_way};

use block_code::VarTypes;
use flat_tree::{FlatArm, FlatStmt, FlatStmts, FlatTest, Operands};
use flow_types::Locals;
use hoisting::parts::{Hoisted, with_set};
use hoisting::{Stage, surely, where_shown};
use py_tree::nodes::{bool_of, var_of};
use py_tree::{Expr, Place, Ty};
use sf_list::Sequence;
use std::alloc::{AllocError, Global};

/// A test, and the number of the next temporary.
#[derive(Drop)]
pub struct Tested {
    pub test: FlatTest,
    pub next: u32,
}

/// Operands, and the number of the next temporary.
#[derive(Drop)]
pub struct TestedEach {
    pub operands: Operands,
    pub next: u32,
}

/// A way through a choice.
#[derive(Drop)]
pub struct Way {
    /// What is assigned where it begins.
    pub start: VarTypes,
    pub before: FlatStmts,
    /// The value that it comes to.
    pub rest: Expr,
    /// The number of the next temporary behind it.
    pub next: u32,
}

/// A test by what is left of an expression.
#[tactic(auto, using(flat_tree::proofs::FlatViews::flat_views))]
pub fn leaf(stage: &Stage, hoisted: Hoisted) -> Tested
    ensures { plain_tested result ≡ spec.leaf (hoisted_at hoisted stage.now) }
{
    Tested {
        test: FlatTest::Leaf(hoisted.before, hoisted.rest),
        next: stage.next,
    }
}

/// `not` of a test.
#[tactic(auto, using(flat_tree::proofs::FlatViews::flat_views))]
pub fn not_test(alloc: Global, tested: Tested) -> Result<Tested, AllocError>
    ensures { IfOk result (λ made. plain_tested made ≡ spec.made_of FNot (plain_tested tested)) }
{
    Ok(Tested {
        test: FlatTest::Not(Box::new(alloc, tested.test)?),
        next: tested.next,
    })
}

/// `and` of operands, or `or`.
#[tactic(auto, using(flat_tree::proofs::FlatViews::flat_views))]
pub fn junction(is_and: bool, tested: TestedEach) -> Tested
    ensures { plain_tested result ≡ spec.made_of (ways.junction is_and) (plain_tested_each tested) }
{
    let next = tested.next;
    if is_and {
        return Tested {
            test: FlatTest::And(tested.operands),
            next,
        };
    }
    Tested {
        test: FlatTest::Or(tested.operands),
        next,
    }
}

/// The way where a test is this literal, to the literal.
pub fn literal_way(
    alloc: Global,
    locals: &Locals,
    test: &Expr,
    truth: bool,
    next: u32,
    place: Place,
) -> Result<Way, AllocError>
    ensures { IfOk result (λ made. plain_way made ≡ way_where truth (plain_expr test.now) (plain_locals locals.now) next (spec.still (PBool place truth))) }
{
    let stage = where_shown(alloc, locals, test, truth, next)?;
    let start = surely(alloc, &stage.locals)?;
    Ok(Way {
        start,
        before: Sequence::new(alloc),
        rest: bool_of(place, truth),
        next: stage.next,
    })
}

/// An `if` with one arm.
#[tactic(auto, using(flat_tree::proofs::FlatViews::flat_views))]
pub fn if_stmt(
    alloc: Global,
    arm: FlatArm,
    other: FlatStmts,
    after: VarTypes,
) -> Result<FlatStmt, AllocError>
    ensures { IfOk result (λ made. plain_flat_stmt made ≡ gives.one_armed arm other after) }
{
    let mut arms = Sequence::new(alloc);
    arms.push(alloc, arm)?;
    Ok(FlatStmt::If {
        arms,
        other,
        after: Some(after),
    })
}

/// The value of one of two ways, in the next temporary behind both, which has this type.
pub fn choose(
    alloc: Global,
    stage: &mut Stage,
    place: Place,
    ty: Ty,
    test: FlatTest,
    holds: Way,
    fails: Way,
) -> Result<Hoisted, AllocError>
    ensures { IfOk result (λ made. hoisted_at made stage.new ≡ gives.choice_in place ty stage.old test holds fails) }
{
    stage.next = fails.next;
    let into = stage.add_temporary(alloc, ty)?;
    let after = surely(alloc, &stage.locals)?;
    let body = with_set(alloc, holds.before, into, holds.rest)?;
    let other = with_set(alloc, fails.before, into, fails.rest)?;
    let arm = FlatArm {
        test,
        start: holds.start,
        body,
        rest: fails.start,
    };
    let mut before = Sequence::new(alloc);
    before.push(alloc, if_stmt(alloc, arm, other, after)?)?;
    Ok(Hoisted {
        before,
        rest: var_of(place, into),
    })
}
