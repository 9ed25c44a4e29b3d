//! Which methods may suspend: the least set of those that hold a call that leaves their entity, a
//! creation, or a call on `self` of a method of the set, at a point that can be reached.
#![tactic(auto)]

mod closure;
mod exprs;
mod program;
mod sites;
mod stmts;
mod suspending;

pub use program::{CallGraph, graph};
