//! What is left of a block from some point on.

ghost use Rattle.std.specs.Prelude.{◌≡◌, ◌<◌, ◌≤◌, true, [], ◌∷◌, IfOk, OnOk};
ghost use Rattle.py_tree.specs.PlainExpressions.{plain_expr};
ghost use Rattle.py_tree.specs.PlainStatements.{plain_stmt};
ghost use Rattle.py_tree.specs.Reachability as reach;
ghost use Rattle.block_code.specs.PlainBlocks.{plain_item, plain_end};
ghost use Rattle.block_code.specs.GraphFits as graph;
ghost use Rattle.method_splitter.specs.Split as spec;
ghost use Rattle.method_splitter.specs.Rests as held;
ghost use Rattle.method_splitter.specs.Rests.{turned, with_statement, code_from_end, plain_target, plain_held, plain_rest};

use block_code::{End, Item, Items};
use py_tree::{Expr, Stmt, goes_on};
use sf_list::{Sequence, TryClone};
use std::alloc::{AllocError, Global};

/// A block.
#[derive(Clone, Copy, PartialEq, Eq, Debug)]
pub struct Target {
    pub number: u32,
    pub rank: u32,
}

/// Code and an end.
#[derive(Drop)]
pub struct Held {
    /// From the last item to the first, and the statements of each from the last to the first.
    pub code: Items,
    pub end: End,
    /// The rank of a block that holds no more.
    pub rank: u32,
}

/// What is left of a block: nothing but a jump, or code and an end.
#[derive(Drop)]
pub enum Rest {
    Jumps(Target),
    Holds(Held),
}

/// An end without code before it.
pub fn ending(alloc: Global, end: End, rank: u32) -> Rest
    ensures { plain_rest result ≡ spec.Holds [] (plain_end end) rank }
{
    Rest::Holds(Held {
        code: Sequence::new(alloc),
        end,
        rank,
    })
}

/// Where the method ends.
pub fn leave(alloc: Global) -> Rest
    ensures { plain_rest result ≡ spec.leave }
{
    ending(alloc, End::Leave, 0)
}

/// What is left of a block, as code and an end.
pub fn as_held(alloc: Global, rest: Rest) -> Held
    requires { spec.rank_of (plain_rest rest) ≤ 4294967295 }
    ensures { plain_held result ≡ spec.Holds (spec.code_of (plain_rest rest)) (spec.end_of (plain_rest rest)) (spec.rank_of (plain_rest rest)) }
{
    match rest {
        Rest::Jumps(to) => Held {
            code: Sequence::new(alloc),
            end: End::Jump(to.number),
            rank: to.rank + 1,
        },
        Rest::Holds(held) => held,
    }
}

/// Whether an item takes a step.
#[tactic(auto, using(crate::proofs::OtherOrder::turning_laws))]
fn takes_step(item: &Item) -> bool
    ensures { result ≡ graph.takes_step (turned (plain_item item.now)) }
{
    match item {
        Item::Mark => true,
        Item::Code(code) => !code.is_empty(),
        Item::Set(..) | Item::Put(..) | Item::Give(_) | Item::Fail(..) => false,
    }
}

/// Whether an item is statements of the source.
fn is_code(item: &Item) -> bool
    ensures { result ≡ held.is_code (plain_item item.now) }
{
    matches!(item, Item::Code(_))
}

/// Whether code begins with statements of the source.
fn begins_with_code(code: &[Item]) -> bool
    ensures { result ≡ held.begins_with_code (code_from_end code.now) }
{
    if code.is_empty() {
        return false;
    }
    is_code(&code[code.len() - 1])
}

/// Puts a statement before those of an item.
#[tactic(auto, using(crate::proofs::OtherOrder::turning_laws))]
fn add_to_item(alloc: Global, item: &mut Item, stmt: Stmt) -> Result<(), AllocError>
    requires { held.is_code (plain_item item.old) ≡ true }
    ensures { OnOk result (turned (plain_item item.new) ∷ [] ≡ with_statement (plain_stmt stmt) (turned (plain_item item.old) ∷ [])) }
{
    match item {
        Item::Code(code) => {
            code.push(alloc, stmt)?;
            Ok(())
        }
        Item::Mark | Item::Set(..) | Item::Put(..) | Item::Give(_) | Item::Fail(..) =>
            unreachable!(),
    }
}

/// Puts a statement before code.
fn add_statement(alloc: Global, code: &mut Items, stmt: Stmt) -> Result<(), AllocError>
    ensures { OnOk result (code_from_end code.new ≡ with_statement (plain_stmt stmt) (code_from_end code.old)) }
{
    if begins_with_code(code.as_slice()) {
        let last = code.len() - 1;
        add_to_item(alloc, code.at_mut(last), stmt)?;
        return Ok(());
    }
    let mut stmts = Sequence::new(alloc);
    stmts.push(alloc, stmt)?;
    code.push(alloc, Item::Code(stmts))?;
    Ok(())
}

/// An item before it.
pub fn front(alloc: Global, item: Item, rest: Rest) -> Result<Rest, AllocError>
    requires { spec.rank_of (plain_rest rest) ≤ 4294967295 }
    ensures { IfOk result (λ made. plain_rest made ≡ spec.front (turned (plain_item item)) (plain_rest rest)) }
{
    let mut held = as_held(alloc, rest);
    if takes_step(&item) {
        held.rank = 0;
    }
    held.code.push(alloc, item)?;
    Ok(Rest::Holds(held))
}

/// A statement of the source before it.
#[tactic(auto, using(crate::proofs::RestLaws::front_code_is))]
pub fn front_code(alloc: Global, stmt: Stmt, rest: Rest) -> Result<Rest, AllocError>
    requires { spec.rank_of (plain_rest rest) ≤ 4294967295 }
    ensures { IfOk result (λ made. plain_rest made ≡ spec.front_code (plain_stmt stmt) (plain_rest rest)) }
{
    let mut held = as_held(alloc, rest);
    add_statement(alloc, &mut held.code, stmt)?;
    held.rank = 0;
    Ok(Rest::Holds(held))
}

/// A statement of the source before it, behind which nothing stands where it doesn't go on.
pub fn coded(alloc: Global, stmt: &Stmt, rest: Rest) -> Result<Rest, AllocError>
    requires { spec.rank_of (plain_rest rest) ≤ 4294967295 }
    ensures { IfOk result (λ made. plain_rest made ≡ spec.coded (reach.goes_on (plain_stmt stmt.now)) (plain_stmt stmt.now) (plain_rest rest)) }
{
    let copy = stmt.try_clone(alloc)?;
    if goes_on(stmt) {
        return front_code(alloc, copy, rest);
    }
    drop(rest);
    front_code(alloc, copy, leave(alloc))
}

/// A test before two blocks.
pub fn branch(alloc: Global, test: &Expr, holds: Target, fails: Target) -> Result<Rest, AllocError>
    requires holds { holds.rank < 4294967295 }
    requires fails { fails.rank < 4294967295 }
    ensures { IfOk result (λ made. plain_rest made ≡ spec.branch (plain_expr test.now) (plain_target holds) (plain_target fails)) }
{
    let test = test.try_clone(alloc)?;
    let end = End::Branch(test, holds.number, fails.number);
    Ok(ending(alloc, end, u32::max(holds.rank, fails.rank) + 1))
}

/// A copy of code and an end.
#[tactic(auto, using(crate::proofs::RestLaws::copied_items))]
fn copy_held(alloc: Global, held: &Held) -> Result<Held, AllocError>
    ensures { IfOk result (λ made. plain_held made ≡ plain_held held.now) }
{
    let code = held.code.try_clone(alloc)?;
    let end = held.end.try_clone(alloc)?;
    Ok(Held {
        code,
        end,
        rank: held.rank,
    })
}

/// A copy of a rest.
pub fn copy_rest(alloc: Global, rest: &Rest) -> Result<Rest, AllocError>
    ensures { IfOk result (λ made. plain_rest made ≡ plain_rest rest.now) }
{
    match rest {
        Rest::Jumps(to) => Ok(Rest::Jumps(*to)),
        Rest::Holds(held) => Ok(Rest::Holds(copy_held(alloc, held)?)),
    }
}
