//! Methods that keep the rules on types and statements keep them where calls come out of them.
//!
//! What is said of flat methods is a definition, in `specs/`; that it holds of each method is said at the function of `laws`.
#![tactic(auto)]

mod laws;

pub use laws::{methods_have_types, methods_keep_types};
