//! Blocks out of flat methods: from a flat method to the blocks that mean it.
//!
//! How a flat method is split is a definition, in `specs/`. `split` gives exactly those blocks, and what they
//! mean is said at the functions of `laws`.
#![tactic(auto)]

mod around;
mod blocks;
mod fault;
mod laws;
mod rest;
mod small;
mod turning;
mod walk;

pub use fault::SplitError;
pub use laws::{blocks_go_on, blocks_mean_flat, params_are_points, ranks_are_small};
pub use walk::split;
