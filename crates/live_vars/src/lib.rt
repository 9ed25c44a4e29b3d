//! The live variables of each block of a method, and blocks whose parameters are cut to them.
#![tactic(auto)]

mod cutting;
mod expressions;
mod items;
mod laws;
mod live_sets;
mod name_lists;
mod paths;
mod sets;

pub use cutting::trim;
pub use laws::fit_graphs_take_live;
pub use name_lists::{NameLists, saved};
