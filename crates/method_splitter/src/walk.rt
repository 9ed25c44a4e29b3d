//! The blocks of flat code, from its end.

ghost use Rattle.std.specs.Prelude.{◌≡◌, ◌+◌, ◌<◌, ◌≤◌, true, false, [], ◌∷◌, ◌++◌, length, take, IfOk, OnOk, slice_set};
ghost use Rattle.py_tree.specs.PlainExpressions.{plain_expr, plain_exprs, exprs_of};
ghost use Rattle.py_tree.specs.PlainStatements.{plain_option};
ghost use Rattle.block_code.specs.PlainVars.{plain_vars};
ghost use Rattle.block_code.specs.PlainBlocks.{plain_block, plain_blocks};
ghost use Rattle.flat_tree.specs.PlainFlat.{flat_stmts_of, plain_flat_stmt, plain_flat_stmts, plain_flat_arm, plain_flat_clause, plain_flat_test, plain_operand, plain_flat};
ghost use Rattle.method_splitter.specs.Split as spec;
ghost use Rattle.method_splitter.specs.Split.{◌and_then◌};
ghost use Rattle.method_splitter.specs.SmallStatements as statement;
ghost use Rattle.method_splitter.specs.SmallStatements.{reached_part};
ghost use Rattle.method_splitter.specs.Rests.{plain_target, plain_rest, plain_caughts, plain_around};
ghost use Rattle.method_splitter.specs.SplitSteps.{arm_code, and_code, or_code, body_code, endless_code, head_code, clause_code, guarded_code, MakesBody};
ghost use Rattle.method_splitter.specs.TreesSplit.{arms_split, test_split, operands_split, head_split, body_split, clauses_split};
ghost use Rattle.method_splitter.specs.Numbering.{SplitsInto, no_block, rank_below, Ready, AroundReady, MakesRest, MakesTarget, MakesCaughts};

use crate::around::{Around, Caughts, caught_first, copy_caughts, guarded, inside, rank_in};
use crate::blocks::{add_block, block_of, homed, joined, lodge, outlet};
use crate::fault::SplitError;
use crate::rest::{Rest, Target, as_held, branch, copy_rest, ending, front, leave};
use crate::small::{call_end, make_end, small};
use block_code::{Block, Blocks, End, Item, VarTypes};
use flat_tree::{Flat, FlatArm, FlatClause, FlatStmt, FlatTest, Operand};
use py_tree::is_true;
use sf_list::{Sequence, TryClone};
use std::alloc::{AllocError, Global};

/// Whether nothing goes on behind a statement.
#[tactic(auto, using(flat_tree::proofs::FlatViews::flat_views))]
fn stops(stmt: &FlatStmt) -> bool
    ensures { result ≡ spec.stops (plain_flat_stmt stmt.now) }
{
    match stmt {
        FlatStmt::Give(_) | FlatStmt::Fail(..) | FlatStmt::Break | FlatStmt::Continue => true,
        FlatStmt::Mark
        | FlatStmt::Set(..)
        | FlatStmt::Put(..)
        | FlatStmt::Code(_)
        | FlatStmt::Call { .. }
        | FlatStmt::Make { .. }
        | FlatStmt::If { .. }
        | FlatStmt::While { .. }
        | FlatStmt::Try { .. } => false,
    }
}

/// How many statements there are up to the first behind which nothing goes on.
fn reached(stmts: &[FlatStmt]) -> usize
    ensures within { result ≤ length stmts.now }
    ensures part { plain_flat_stmts (take result stmts.now) ≡ reached_part (plain_flat_stmts stmts.now) }
{
    for (i, stmt) in stmts.iter().enumerate() {
        if stops(stmt) {
            return i + 1;
        }
    }
    stmts.len()
}

/// Whether a test is the literal True.
#[tactic(auto, using(flat_tree::proofs::FlatViews::flat_views))]
fn always(test: &FlatTest) -> bool
    ensures { result ≡ spec.always (plain_flat_test test.now) }
{
    match test {
        FlatTest::Leaf(before, value) => before.is_empty() && is_true(value),
        FlatTest::Not(_) | FlatTest::And(_) | FlatTest::Or(_) => false,
    }
}

/// A block that is made later.
fn empty_block(alloc: Global) -> Block
    ensures { plain_block result ≡ no_block }
{
    Block {
        params: Sequence::new(alloc),
        code: Sequence::new(alloc),
        end: End::Leave,
        rank: 0,
        catches: Sequence::new(alloc),
    }
}

/// Makes the block of this number, where a rest begins.
fn set_block(
    alloc: Global,
    blocks: &mut Blocks,
    around: &Around,
    number: u32,
    params: &VarTypes,
    rest: Rest,
) -> Result<(), AllocError>
    requires there { number < length (plain_blocks blocks.old) }
    requires ready { Ready (plain_blocks blocks.old) (spec.rank_of (plain_rest rest)) }
    requires around { AroundReady (plain_blocks blocks.old) (plain_around around.now) }
    ensures { OnOk result (plain_blocks blocks.new ≡ slice_set (plain_blocks blocks.old) number (spec.block (plain_around around.now) (plain_vars params.now) (plain_rest rest))) }
{
    let block = block_of(alloc, around, params, as_held(alloc, rest))?;
    blocks.set(number as usize, block);
    Ok(())
}

/// The rank of a block that holds this.
fn rank_of(rest: &Rest) -> u32
    requires { spec.rank_of (plain_rest rest.now) ≤ 4294967295 }
    ensures { result ≡ spec.rank_of (plain_rest rest.now) }
{
    match rest {
        Rest::Jumps(to) => to.rank + 1,
        Rest::Holds(held) => held.rank,
    }
}

#[cycle(split)]
fn split_stmt(
    alloc: Global,
    stmt: &FlatStmt,
    blocks: &mut Blocks,
    around: &Around,
    rest: Rest,
) -> Result<Rest, SplitError>
    requires ready { Ready (plain_blocks blocks.old) (spec.rank_of (plain_rest rest)) }
    requires around { AroundReady (plain_blocks blocks.old) (plain_around around.now) }
    ensures { MakesRest (spec.split (plain_flat_stmt stmt.now) (plain_around around.now) (plain_rest rest)) blocks.old blocks.new result }
{
    match stmt {
        FlatStmt::Call {
            on,
            callee,
            args,
            into,
            after,
        } => {
            let to = lodge(alloc, blocks, around, after, rest)?;
            Ok(call_end(alloc, on, *callee, args, *into, to.number)?)
        }
        FlatStmt::Make {
            class,
            args,
            into,
            after,
        } => {
            let to = lodge(alloc, blocks, around, after, rest)?;
            Ok(make_end(alloc, *class, args, *into, to.number)?)
        }
        FlatStmt::If { arms, other, after } => {
            let join = joined(alloc, blocks, around, after, rest)?;
            let last = copy_rest(alloc, &join)?;
            let rest = split_all(alloc, other.as_slice(), blocks, around, last)?;
            split_arms(alloc, arms.as_slice(), blocks, around, &join, rest)
        }
        FlatStmt::While {
            head,
            test,
            start,
            body,
            after,
        } => {
            let behind = outlet(alloc, blocks, around, after, rest)?;
            if always(test) {
                return split_endless(alloc, body.as_slice(), head, blocks, around, behind);
            }
            let fails = lodge(alloc, blocks, around, head, copy_rest(alloc, &behind)?)?;
            let again = split_head(alloc, test, head, blocks, around, fails)?;
            let within = inside(alloc, around, behind, again)?;
            split_body(alloc, body.as_slice(), start, blocks, within, again)?;
            Ok(Rest::Jumps(again))
        }
        FlatStmt::Try {
            start,
            body,
            clauses,
            after,
        } => {
            let behind = outlet(alloc, blocks, around, after, rest)?;
            let catches = split_clauses(alloc, clauses.as_slice(), blocks, around, &behind)?;
            let within = guarded(alloc, around, catches)?;
            split_guarded(alloc, body.as_slice(), start, blocks, within, behind)
        }
        FlatStmt::Mark
        | FlatStmt::Set(..)
        | FlatStmt::Put(..)
        | FlatStmt::Give(_)
        | FlatStmt::Fail(..)
        | FlatStmt::Code(_)
        | FlatStmt::Break
        | FlatStmt::Continue => Ok(small(alloc, stmt, around, rest)?),
    }
}

#[cycle(split)]
fn split_all(
    alloc: Global,
    stmts: &[FlatStmt],
    blocks: &mut Blocks,
    around: &Around,
    rest: Rest,
) -> Result<Rest, SplitError>
    requires ready { Ready (plain_blocks blocks.old) (spec.rank_of (plain_rest rest)) }
    requires around { AroundReady (plain_blocks blocks.old) (plain_around around.now) }
    ensures { MakesRest (spec.split_all (flat_stmts_of (plain_flat_stmts stmts.now)) (plain_around around.now) (plain_rest rest)) blocks.old blocks.new result }
{
    let mut rest = rest;
    let mut at = reached(stmts);
    while at > 0 {
        at -= 1;
        rest = split_stmt(alloc, &stmts[at], blocks, around, rest)?;
    }
    Ok(rest)
}

#[cycle(split)]
fn split_arms(
    alloc: Global,
    arms: &[FlatArm],
    blocks: &mut Blocks,
    around: &Around,
    join: &Rest,
    other: Rest,
) -> Result<Rest, SplitError>
    requires ready { Ready (plain_blocks blocks.old) (spec.rank_of (plain_rest other)) }
    requires join { Ready (plain_blocks blocks.old) (spec.rank_of (plain_rest join.now)) }
    requires around { AroundReady (plain_blocks blocks.old) (plain_around around.now) }
    ensures { MakesRest (arms_split arms.now around.now join.now other) blocks.old blocks.new result }
{
    let mut later = other;
    let mut at = arms.len();
    while at > 0 {
        at -= 1;
        later = split_arm(alloc, &arms[at], blocks, around, join, later)?;
    }
    Ok(later)
}

#[cycle(split)]
fn split_arm(
    alloc: Global,
    arm: &FlatArm,
    blocks: &mut Blocks,
    around: &Around,
    join: &Rest,
    later: Rest,
) -> Result<Rest, SplitError>
    requires ready { Ready (plain_blocks blocks.old) (spec.rank_of (plain_rest later)) }
    requires join { Ready (plain_blocks blocks.old) (spec.rank_of (plain_rest join.now)) }
    requires around { AroundReady (plain_blocks blocks.old) (plain_around around.now) }
    ensures { MakesRest (arm_code (plain_flat_arm arm.now) (plain_around around.now) (plain_rest join.now) (plain_rest later)) blocks.old blocks.new result }
{
    let fails = lodge(alloc, blocks, around, &arm.rest, later)?;
    let last = copy_rest(alloc, join)?;
    let first = split_all(alloc, arm.body.as_slice(), blocks, around, last)?;
    let holds = lodge(alloc, blocks, around, &arm.start, first)?;
    split_test(alloc, &arm.test, blocks, around, holds, fails)
}

#[cycle(split)]
fn split_test(
    alloc: Global,
    test: &FlatTest,
    blocks: &mut Blocks,
    around: &Around,
    holds: Target,
    fails: Target,
) -> Result<Rest, SplitError>
    requires holds { Ready (plain_blocks blocks.old) (rank_below (plain_target holds)) }
    requires fails { Ready (plain_blocks blocks.old) (rank_below (plain_target fails)) }
    requires around { AroundReady (plain_blocks blocks.old) (plain_around around.now) }
    ensures { MakesRest (test_split test.now around.now holds fails) blocks.old blocks.new result }
{
    match test {
        FlatTest::Leaf(before, value) => {
            let rest = branch(alloc, value, holds, fails)?;
            split_all(alloc, before.as_slice(), blocks, around, rest)
        }
        FlatTest::Not(test) => split_test(alloc, test, blocks, around, fails, holds),
        FlatTest::And(operands) => {
            split_and(alloc, operands.as_slice(), blocks, around, holds, fails)
        }
        FlatTest::Or(operands) => {
            split_or(alloc, operands.as_slice(), blocks, around, holds, fails)
        }
    }
}

#[cycle(split)]
fn split_and(
    alloc: Global,
    operands: &[Operand],
    blocks: &mut Blocks,
    around: &Around,
    holds: Target,
    fails: Target,
) -> Result<Rest, SplitError>
    requires holds { Ready (plain_blocks blocks.old) (rank_below (plain_target holds)) }
    requires fails { Ready (plain_blocks blocks.old) (rank_below (plain_target fails)) }
    requires around { AroundReady (plain_blocks blocks.old) (plain_around around.now) }
    ensures { MakesRest (operands_split true operands.now around.now holds fails) blocks.old blocks.new result }
{
    let mut later = Rest::Jumps(holds);
    let mut at = operands.len();
    while at > 0 {
        at -= 1;
        later = split_and_operand(alloc, &operands[at], blocks, around, fails, later)?;
    }
    Ok(later)
}

#[cycle(split)]
fn split_or(
    alloc: Global,
    operands: &[Operand],
    blocks: &mut Blocks,
    around: &Around,
    holds: Target,
    fails: Target,
) -> Result<Rest, SplitError>
    requires holds { Ready (plain_blocks blocks.old) (rank_below (plain_target holds)) }
    requires fails { Ready (plain_blocks blocks.old) (rank_below (plain_target fails)) }
    requires around { AroundReady (plain_blocks blocks.old) (plain_around around.now) }
    ensures { MakesRest (operands_split false operands.now around.now holds fails) blocks.old blocks.new result }
{
    let mut later = Rest::Jumps(fails);
    let mut at = operands.len();
    while at > 0 {
        at -= 1;
        later = split_or_operand(alloc, &operands[at], blocks, around, holds, later)?;
    }
    Ok(later)
}

#[cycle(split)]
fn split_and_operand(
    alloc: Global,
    operand: &Operand,
    blocks: &mut Blocks,
    around: &Around,
    fails: Target,
    later: Rest,
) -> Result<Rest, SplitError>
    requires ready { Ready (plain_blocks blocks.old) (spec.rank_of (plain_rest later)) }
    requires fails { Ready (plain_blocks blocks.old) (rank_below (plain_target fails)) }
    requires around { AroundReady (plain_blocks blocks.old) (plain_around around.now) }
    ensures { MakesRest (and_code (plain_operand operand.now) (plain_around around.now) (plain_target fails) (plain_rest later)) blocks.old blocks.new result }
{
    let onward = lodge(alloc, blocks, around, &operand.rest, later)?;
    split_test(alloc, &operand.test, blocks, around, onward, fails)
}

#[cycle(split)]
fn split_or_operand(
    alloc: Global,
    operand: &Operand,
    blocks: &mut Blocks,
    around: &Around,
    holds: Target,
    later: Rest,
) -> Result<Rest, SplitError>
    requires ready { Ready (plain_blocks blocks.old) (spec.rank_of (plain_rest later)) }
    requires holds { Ready (plain_blocks blocks.old) (rank_below (plain_target holds)) }
    requires around { AroundReady (plain_blocks blocks.old) (plain_around around.now) }
    ensures { MakesRest (or_code (plain_operand operand.now) (plain_around around.now) (plain_target holds) (plain_rest later)) blocks.old blocks.new result }
{
    let onward = lodge(alloc, blocks, around, &operand.rest, later)?;
    split_test(alloc, &operand.test, blocks, around, holds, onward)
}

#[cycle(split)]
fn split_endless(
    alloc: Global,
    body: &[FlatStmt],
    head: &VarTypes,
    blocks: &mut Blocks,
    around: &Around,
    behind: Rest,
) -> Result<Rest, SplitError>
    requires ready { Ready (plain_blocks blocks.old) (spec.rank_of (plain_rest behind)) }
    requires around { AroundReady (plain_blocks blocks.old) (plain_around around.now) }
    ensures { MakesRest (endless_code (flat_stmts_of (plain_flat_stmts body.now)) (plain_around around.now) (plain_vars head.now) (plain_rest behind)) blocks.old blocks.new result }
{
    let number = add_block(alloc, blocks, empty_block(alloc))?;
    let rank = rank_in(around, 0);
    let again = Target { number, rank };
    let within = inside(alloc, around, behind, again)?;
    let begin = split_all(alloc, body, blocks, &within, Rest::Jumps(again))?;
    drop(within);
    let begin = front(alloc, Item::Mark, begin)?;
    set_block(alloc, blocks, around, number, head, begin)?;
    Ok(Rest::Jumps(again))
}

#[cycle(split)]
fn split_head(
    alloc: Global,
    test: &FlatTest,
    head: &VarTypes,
    blocks: &mut Blocks,
    around: &Around,
    fails: Target,
) -> Result<Target, SplitError>
    requires fails { Ready (plain_blocks blocks.old) (rank_below (plain_target fails)) }
    requires around { AroundReady (plain_blocks blocks.old) (plain_around around.now) }
    ensures { MakesTarget (head_split test.now (plain_vars head.now) around.now fails) blocks.old blocks.new result }
{
    let number = add_block(alloc, blocks, empty_block(alloc))?;
    let start = add_block(alloc, blocks, empty_block(alloc))?;
    let holds = Target {
        number: start,
        rank: rank_in(around, 0),
    };
    let begin = split_test(alloc, test, blocks, around, holds, fails)?;
    let rank = rank_in(around, rank_of(&begin));
    set_block(alloc, blocks, around, number, head, begin)?;
    Ok(Target { number, rank })
}

#[cycle(split)]
fn split_body(
    alloc: Global,
    body: &[FlatStmt],
    start: &VarTypes,
    blocks: &mut Blocks,
    around: Around,
    again: Target,
) -> Result<(), SplitError>
    requires around { AroundReady (plain_blocks blocks.old) (plain_around around) }
    requires again { Ready (plain_blocks blocks.old) (rank_below (plain_target again)) }
    requires there { again.number + 1 < length (plain_blocks blocks.old) }
    ensures { MakesBody (body_split body.now around again) (plain_around around) (plain_vars start.now) (again.number + 1) blocks.old blocks.new result }
{
    let begin = split_all(alloc, body, blocks, &around, Rest::Jumps(again))?;
    let begin = front(alloc, Item::Mark, begin)?;
    set_block(alloc, blocks, &around, again.number + 1, start, begin)?;
    drop(around);
    Ok(())
}

#[cycle(split)]
fn split_clauses(
    alloc: Global,
    clauses: &[FlatClause],
    blocks: &mut Blocks,
    around: &Around,
    join: &Rest,
) -> Result<Caughts, SplitError>
    requires join { Ready (plain_blocks blocks.old) (spec.rank_of (plain_rest join.now)) }
    requires around { AroundReady (plain_blocks blocks.old) (plain_around around.now) }
    ensures { MakesCaughts (clauses_split clauses.now around.now join.now) blocks.old blocks.new result }
{
    let mut later = copy_caughts(alloc, &around.catches)?;
    let mut at = clauses.len();
    while at > 0 {
        at -= 1;
        later = split_clause(alloc, &clauses[at], blocks, around, join, later)?;
    }
    Ok(later)
}

#[cycle(split)]
fn split_clause(
    alloc: Global,
    clause: &FlatClause,
    blocks: &mut Blocks,
    around: &Around,
    join: &Rest,
    later: Caughts,
) -> Result<Caughts, SplitError>
    requires join { Ready (plain_blocks blocks.old) (spec.rank_of (plain_rest join.now)) }
    requires later { Ready (plain_blocks blocks.old) (spec.floor (plain_caughts later)) }
    requires around { AroundReady (plain_blocks blocks.old) (plain_around around.now) }
    ensures { MakesCaughts (clause_code (plain_flat_clause clause.now) (plain_around around.now) (plain_rest join.now) (plain_caughts later)) blocks.old blocks.new result }
{
    let last = copy_rest(alloc, join)?;
    let first = split_all(alloc, clause.body.as_slice(), blocks, around, last)?;
    let to = homed(alloc, blocks, around, &clause.start, first)?;
    Ok(caught_first(alloc, &clause.kinds, to, later)?)
}

#[cycle(split)]
fn split_guarded(
    alloc: Global,
    body: &[FlatStmt],
    start: &VarTypes,
    blocks: &mut Blocks,
    around: Around,
    behind: Rest,
) -> Result<Rest, SplitError>
    requires ready { Ready (plain_blocks blocks.old) (spec.rank_of (plain_rest behind)) }
    requires around { AroundReady (plain_blocks blocks.old) (plain_around around) }
    ensures { MakesRest (guarded_code (flat_stmts_of (plain_flat_stmts body.now)) (plain_around around) (plain_vars start.now) (plain_rest behind)) blocks.old blocks.new result }
{
    let first = split_all(alloc, body, blocks, &around, behind)?;
    let to = lodge(alloc, blocks, &around, start, first)?;
    drop(around);
    Ok(Rest::Jumps(to))
}

/// The blocks of a flat method; the first has its parameters.
pub fn split(alloc: Global, flat: &Flat) -> Result<Blocks, SplitError>
    ensures { SplitsInto (plain_flat flat.now) result }
{
    let mut blocks = Sequence::new(alloc);
    let first = add_block(alloc, &mut blocks, empty_block(alloc))?;
    let around = Around {
        breaks: leave(alloc),
        continues: leave(alloc),
        catches: Sequence::new(alloc),
    };
    let body = split_all(
        alloc,
        flat.body.as_slice(),
        &mut blocks,
        &around,
        leave(alloc),
    )?;
    set_block(alloc, &mut blocks, &around, first, &flat.params, body)?;
    drop(around);
    Ok(blocks)
}
