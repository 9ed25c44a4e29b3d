//! Statements of flat code that make no block, and the ends of those that wait.

ghost use Rattle.std.specs.Prelude.{◌≡◌, ◌≤◌, true, [], IfOk};
ghost use Rattle.py_tree.specs.PlainExpressions.{plain_expr, plain_exprs, exprs_of};
ghost use Rattle.block_code.specs.PlainBlocks.{PlainItem, IGive, IFail, EMake};
ghost use Rattle.py_tree.specs.PlainStatements.{plain_option};
ghost use Rattle.flat_tree.specs.PlainFlat.{plain_flat_stmt};
ghost use Rattle.method_splitter.specs.Split as spec;
ghost use Rattle.method_splitter.specs.SmallStatements as statement;
ghost use Rattle.method_splitter.specs.Rests.{plain_rest, plain_around};

use crate::around::Around;
use crate::rest::{Rest, coded, copy_rest, ending, front, leave};
use block_code::{End, Item};
use flat_tree::{Callee, Created, FlatStmt};
use py_tree::{Expr, Exprs, Name};
use sf_list::TryClone;
use std::alloc::{AllocError, Global};

/// A value that is returned.
fn give(alloc: Global, value: &Expr) -> Result<Rest, AllocError>
    ensures { IfOk result (λ made. plain_rest made ≡ spec.front (IGive (plain_expr value.now)) spec.leave) }
{
    let value = value.try_clone(alloc)?;
    front(alloc, Item::Give(value), leave(alloc))
}

/// A failure.
fn fail(alloc: Global, kind: u8, message: &Option<Expr>) -> Result<Rest, AllocError>
    ensures { IfOk result (λ made. plain_rest made ≡ spec.front (IFail kind (plain_option plain_expr message.now)) spec.leave) }
{
    match message {
        None => front(alloc, Item::Fail(kind, None), leave(alloc)),
        Some(message) => {
            let message = message.try_clone(alloc)?;
            front(alloc, Item::Fail(kind, Some(message)), leave(alloc))
        }
    }
}

/// The rest where a statement begins that makes no block.
#[tactic(auto, using(flat_tree::proofs::FlatViews::flat_views))]
pub fn small(
    alloc: Global,
    stmt: &FlatStmt,
    around: &Around,
    rest: Rest,
) -> Result<Rest, AllocError>
    requires { spec.rank_of (plain_rest rest) ≤ 4294967295 }
    ensures { IfOk result (λ made. plain_rest made ≡ statement.small (plain_flat_stmt stmt.now) (plain_around around.now) (plain_rest rest)) }
{
    match stmt {
        FlatStmt::Mark => front(alloc, Item::Mark, rest),
        FlatStmt::Set(name, value) => front(alloc, Item::Set(*name, value.try_clone(alloc)?), rest),
        FlatStmt::Put(name, value) => front(alloc, Item::Put(*name, value.try_clone(alloc)?), rest),
        FlatStmt::Give(value) => give(alloc, value),
        FlatStmt::Fail(kind, message) => fail(alloc, *kind, message),
        FlatStmt::Code(code) => coded(alloc, code, rest),
        FlatStmt::Break => copy_rest(alloc, &around.breaks),
        FlatStmt::Continue => copy_rest(alloc, &around.continues),
        FlatStmt::Call { .. }
        | FlatStmt::Make { .. }
        | FlatStmt::If { .. }
        | FlatStmt::While { .. }
        | FlatStmt::Try { .. } => Ok(rest),
    }
}

/// Waits for a call.
#[tactic(auto, using(crate::proofs::RestLaws::copied_exprs))]
pub fn call_end(
    alloc: Global,
    on: &Expr,
    callee: Callee,
    args: &Exprs,
    into: Name,
    after: u32,
) -> Result<Rest, AllocError>
    ensures { IfOk result (λ made. plain_rest made ≡ statement.calling (plain_expr on.now) callee (exprs_of (plain_exprs args.now)) into.0 after) }
{
    let on = on.try_clone(alloc)?;
    let args = args.try_clone(alloc)?;
    let end = End::Call {
        on,
        class: callee.class,
        method: callee.method,
        args,
        into,
        after,
    };
    Ok(ending(alloc, end, 0))
}

/// Waits for a creation.
#[tactic(auto, using(crate::proofs::RestLaws::copied_exprs))]
pub fn make_end(
    alloc: Global,
    class: Created,
    args: &Exprs,
    into: Name,
    after: u32,
) -> Result<Rest, AllocError>
    ensures { IfOk result (λ made. plain_rest made ≡ spec.Holds [] (EMake class.class (exprs_of (plain_exprs args.now)) into.0 after) 0) }
{
    let args = args.try_clone(alloc)?;
    let end = End::Make {
        class: class.class,
        args,
        into,
        after,
    };
    Ok(ending(alloc, end, 0))
}
