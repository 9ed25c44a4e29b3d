//! Blocks.

use crate::item::Items;
use crate::vars::VarTypes;
use py_tree::{Expr, Exprs, Kinds, Name};
use sf_list::Sequence;

/// A block of a method.
#[derive(Drop)]
pub struct Block {
    /// The variables that are surely assigned where it begins, with their types there.
    pub params: VarTypes,
    pub code: Items,
    pub end: End,
    /// Where no step is taken, a block goes on at blocks of smaller rank alone.
    pub rank: u32,
    /// Where its failures go on, the first that names one before the others.
    pub catches: Catches,
}

/// The blocks of one method, by their numbers.
pub type Blocks = Sequence<Block>;

/// The blocks of each method, in the order of the numbers of classes and of their methods.
pub type MethodBlocks = Sequence<Blocks>;

/// How a block ends.
pub enum End {
    /// It goes on at the block of this number.
    Jump(u32),
    /// It goes on at the first block where the test holds, and else at the second.
    Branch(Expr, u32, u32),
    /// The method falls off its end, and gives None.
    Leave,
    /// It waits for a call of the method of this number.
    Call {
        on: Expr,
        /// The number of the receiver's class.
        class: u32,
        /// The number of the method in that class.
        method: u32,
        args: Exprs,
        /// What the result is assigned to.
        into: Name,
        /// The block that goes on then.
        after: u32,
    },
    /// It waits for the creation of an entity of this class.
    Make {
        class: u32,
        args: Exprs,
        /// What the new entity is assigned to.
        into: Name,
        /// The block that goes on then.
        after: u32,
    },
}

/// Gives each owned part to a call of `drop`, so that a function that lets an end go has one step for it.
impl Drop for End {
    fn drop(self) {
        match self {
            End::Jump(_) | End::Leave => {}
            End::Branch(test, _, _) => drop(test),
            End::Call {
                on,
                class: _,
                method: _,
                args,
                into: _,
                after: _,
            } => {
                drop(on);
                drop(args);
            }
            End::Make {
                class: _,
                args,
                into: _,
                after: _,
            } => drop(args),
        }
    }
}

/// Where failures of some kinds go on.
#[derive(Drop)]
pub struct Catch {
    pub kinds: Kinds,
    /// The number of the block.
    pub to: u32,
}

pub type Catches = Sequence<Catch>;
