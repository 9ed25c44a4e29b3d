//! The callees of hoisted code, and the classes of which it creates entities, are there and have their names.
//!
//! What is said of each method is a definition, in `specs/`; that it holds of an accepted program is said at the function of `laws`.
#![tactic(auto)]

mod laws;

pub use laws::callees_stand;
