//! Calls out of expressions: what runs before an expression, and what is left of it to evaluate.
//!
//! Each function gives exactly what the definition of `hoisting` says. An expression is made a value
//! or a test.
#![tactic(auto)]

pub mod choices;
mod exprs;
pub mod kinds;
mod runs;
mod wants;

pub use exprs::{test, value};
