//! The items of a block's code.

use py_tree::{Expr, Name, Stmts};
use sf_list::Sequence;

/// A piece of code that doesn't suspend. Only a mark and the statements of code take steps.
pub enum Item {
    /// Takes one step.
    Mark,
    /// Assigns a local or a temporary.
    Set(Name, Expr),
    /// Assigns a field of the own entity.
    Put(Name, Expr),
    /// Returns a value.
    Give(Expr),
    /// Fails with the kind of this number and a message.
    Fail(u8, Option<Expr>),
    /// Statements, each of which takes its own step.
    Code(Stmts),
}

pub type Items = Sequence<Item>;

/// Gives each owned part to a call of `drop`, so that a function that lets an item go has one step for it.
impl Drop for Item {
    fn drop(self) {
        match self {
            Item::Mark => {}
            Item::Set(_, value) => drop(value),
            Item::Put(_, value) => drop(value),
            Item::Give(value) => drop(value),
            Item::Fail(_, message) => drop(message),
            Item::Code(code) => drop(code),
        }
    }
}
