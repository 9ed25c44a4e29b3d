//! Calls out of expressions: from a method to the flat method that means the same.
//!
//! How a method is made flat is a definition, in `specs/`, and what it means is said at the functions of
//! `laws`. The first parts of its code stand here; expressions and statements have crates of their own.
#![tactic(auto)]

mod laws;
pub mod parts;
mod setting;
mod stages;

pub use laws::{flat_methods_are_flat, flat_methods_mean};
pub use setting::{Setting, sig_at};
pub use stages::{Stage, copy_locals, surely, where_shown};
