//! From an accepted program to the blocks of its methods.
//!
//! What the compiled graph is, and when its code keeps the rules, are definitions, in `specs/`; what follows is said at the
//! functions of `laws`.
#![tactic(auto)]

mod laws;

pub use laws::{
    compiled_blocks_stand, compiled_fits, compiled_means, compiled_methods_mean, quiet_is_one_block,
};
