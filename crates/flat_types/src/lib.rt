//! When flat methods keep the rules on types, and that the blocks out of them then fit.
//!
//! What is asked of a flat method is a definition, in `specs/`; what follows for its blocks is said at the function of
//! `laws`.
#![tactic(auto)]

mod laws;

pub use laws::blocks_fit;
