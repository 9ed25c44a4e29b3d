//! Flat methods: their suspending calls and creations stand alone, each as a statement over parts that
//! don't suspend.
//!
//! What a source expression reads before such a call is kept in a temporary. Tests stay trees of
//! `and`, `or` and `not`, so that what they show of None isn't lost. Wherever a block may begin, the
//! tree has the variables that are surely assigned there, with their types there. Contracts see a
//! flat method as a plain tree, by the views of `specs/`, and the meaning is of plain trees.
#![tactic(auto)]

mod copy;
mod tree;

pub use tree::{
    Callee, Created, Flat, FlatArm, FlatArms, FlatClause, FlatClauses, FlatStmt, FlatStmts,
    FlatTest, Operand, Operands,
};
