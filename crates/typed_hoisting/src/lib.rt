//! Expressions that keep the rules on types keep them where calls come out of them.
//!
//! What is said of hoisted expressions is a definition, in `specs/`; that it holds of each expression is said at the function of
//! `laws`.
#![tactic(auto)]

mod laws;

pub use laws::expressions_fit;
