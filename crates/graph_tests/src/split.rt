//! The blocks of small flat methods, told as texts.

use block_code::{Block, Blocks, Catch, End, Item};
use flat_tree::{Flat, FlatArm, FlatClause, FlatStmt, FlatStmts, FlatTest};
use itoa::Buffer;
use method_splitter::{SplitError, split};
use py_tree::nodes::{bool_of, int_of};
use py_tree::{Expr, Place};
use sf_list::{Sequence, TryClone};
use std::alloc::{AllocError, Global};
use std::test::Fail;
use test_support::hold_text;

const HERE: Place = Place { line: 1, col: 1 };

/// A mark, and a return of 1 behind it.
fn returning(alloc: Global) -> Result<FlatStmts, AllocError> {
    let mut stmts = Sequence::new(alloc);
    stmts.push(alloc, FlatStmt::Mark)?;
    stmts.push(alloc, FlatStmt::Give(int_of(HERE, 1)))?;
    Ok(stmts)
}

fn marked(alloc: Global) -> Result<FlatStmts, AllocError> {
    let mut stmts = Sequence::new(alloc);
    stmts.push(alloc, FlatStmt::Mark)?;
    Ok(stmts)
}

fn leaf(alloc: Global, value: Expr) -> FlatTest {
    FlatTest::Leaf(Sequence::new(alloc), value)
}

/// `if False: return 1`, with a mark in its other part.
fn branching(alloc: Global) -> Result<FlatStmts, AllocError> {
    let mut arms = Sequence::new(alloc);
    arms.push(
        alloc,
        FlatArm {
            test: leaf(alloc, bool_of(HERE, false)),
            start: Sequence::new(alloc),
            body: returning(alloc)?,
            rest: Sequence::new(alloc),
        },
    )?;
    let other = marked(alloc)?;
    let mut stmts = Sequence::new(alloc);
    stmts.push(
        alloc,
        FlatStmt::If {
            arms,
            other,
            after: Some(Sequence::new(alloc)),
        },
    )?;
    Ok(stmts)
}

/// A loop on the literal False.
fn looping(alloc: Global) -> Result<FlatStmts, AllocError> {
    let mut stmts = Sequence::new(alloc);
    stmts.push(
        alloc,
        FlatStmt::While {
            head: Sequence::new(alloc),
            test: leaf(alloc, bool_of(HERE, false)),
            start: Sequence::new(alloc),
            body: Sequence::new(alloc),
            after: Some(Sequence::new(alloc)),
        },
    )?;
    Ok(stmts)
}

/// A mark within a `try`, whose clause takes an AssertionError and returns 1.
fn trying(alloc: Global) -> Result<FlatStmts, AllocError> {
    let mut kinds = Sequence::new(alloc);
    kinds.push(alloc, 3)?;
    let body = returning(alloc)?;
    let start = Sequence::new(alloc);
    let mut clauses = Sequence::new(alloc);
    clauses.push(alloc, FlatClause { kinds, start, body })?;
    let body = marked(alloc)?;
    let mut stmts = Sequence::new(alloc);
    stmts.push(
        alloc,
        FlatStmt::Try {
            start: Sequence::new(alloc),
            body,
            clauses,
            after: Some(Sequence::new(alloc)),
        },
    )?;
    Ok(stmts)
}

fn item_told(item: &Item) -> &'static str {
    match item {
        Item::Mark => "mark ",
        Item::Give(_) => "give ",
        Item::Set(..) | Item::Put(..) | Item::Fail(..) | Item::Code(_) => "other ",
    }
}

fn end_told(told: &mut String, end: &End) -> Result<(), AllocError> {
    let mut digits = Buffer::new();
    match end {
        End::Jump(to) => {
            told.push_str("jump ")?;
            told.push_str(digits.format(*to))
        }
        End::Branch(_, holds, fails) => {
            told.push_str("branch ")?;
            told.push_str(digits.format(*holds))?;
            told.push(' ')?;
            told.push_str(digits.format(*fails))
        }
        End::Leave => told.push_str("leave"),
        End::Call { .. } | End::Make { .. } => told.push_str("waits"),
    }
}

fn catch_told(told: &mut String, catch: &Catch) -> Result<(), AllocError> {
    let mut digits = Buffer::new();
    told.push_str(", catch")?;
    for kind in catch.kinds.as_slice() {
        told.push(' ')?;
        told.push_str(digits.format(*kind))?;
    }
    told.push_str(" at ")?;
    told.push_str(digits.format(catch.to))
}

/// Its items, its end, its rank and its catches.
fn block_told(told: &mut String, block: &Block) -> Result<(), AllocError> {
    for item in block.code.as_slice() {
        told.push_str(item_told(item))?;
    }
    end_told(told, &block.end)?;
    let mut digits = Buffer::new();
    told.push_str(" /")?;
    told.push_str(digits.format(block.rank))?;
    for catch in block.catches.as_slice() {
        catch_told(told, catch)?;
    }
    told.push_str("; ")
}

fn blocks_told(alloc: Global, blocks: &Blocks) -> Result<String, AllocError> {
    let mut told = String::new(alloc);
    for block in blocks.as_slice() {
        block_told(&mut told, block)?;
    }
    Ok(told)
}

/// The blocks of a method without parameters, of which a copy was split.
fn split_told(alloc: Global, body: FlatStmts) -> Result<String, AllocError> {
    let flat = Flat {
        params: Sequence::new(alloc),
        body,
    };
    let copy = flat.try_clone(alloc)?;
    drop(flat);
    let blocks = split(alloc, &copy);
    drop(copy);
    match blocks {
        Ok(blocks) => {
            let told = blocks_told(alloc, &blocks);
            drop(blocks);
            told
        }
        Err(SplitError::TooManyBlocks) => String::from_str(alloc, "too many"),
        Err(SplitError::NoMemory) => Err(AllocError),
    }
}

/// The blocks of the body that a function makes.
fn told(alloc: Global, body: Result<FlatStmts, AllocError>) -> Result<String, AllocError> {
    split_told(alloc, body?)
}

#[test]
fn straight_code_is_one_block(rt: HostRuntime) -> Result<(), Fail> {
    let told = told(rt.alloc(), returning(rt.alloc()));
    hold_text(told, "mark give leave /0; ")
}

#[test]
fn a_branch_has_a_block_for_each_way_and_one_behind(rt: HostRuntime) -> Result<(), Fail> {
    let told = told(rt.alloc(), branching(rt.alloc()));
    let wanted = "branch 3 2 /1; leave /0; mark jump 1 /0; mark give leave /0; ";
    hold_text(told, wanted)
}

#[test]
fn a_loop_has_a_head_and_a_body_that_begins_with_a_step(rt: HostRuntime) -> Result<(), Fail> {
    let told = told(rt.alloc(), looping(rt.alloc()));
    let wanted = "jump 2 /2; leave /0; branch 3 1 /1; mark jump 2 /0; ";
    hold_text(told, wanted)
}

#[test]
fn a_body_of_a_try_has_a_block_with_its_catches(rt: HostRuntime) -> Result<(), Fail> {
    let told = told(rt.alloc(), trying(rt.alloc()));
    let wanted = "jump 3 /2; leave /0; mark give leave /0; mark jump 1 /1, catch 3 at 2; ";
    hold_text(told, wanted)
}
