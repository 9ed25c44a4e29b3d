//! The steps of one transaction: the world of its request, and its next event, which is handled on the record of its target.
//!
//! A batch has many of them, of which one at a time takes a step. The crate runs nothing.
#![tactic(auto)]

mod laws;

pub use laws::{enough_blocks, targets_are_of_few_classes, transactions_begin, transactions_go_on};
