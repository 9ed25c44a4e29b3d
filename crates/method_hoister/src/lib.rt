//! Calls out of statements: from a method to the flat method that means the same.
//!
//! Each function gives exactly what the definition of `hoisting` says.
#![tactic(auto)]

mod code;
mod jumps;
mod loops;
mod methods;
mod ranges;
mod stmts;
mod targets;

pub use methods::hoist;
