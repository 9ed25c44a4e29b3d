//! A rule on commits that reorders a batch, so that one who reads what another writes need not wait for it.
#![tactic(auto)]

mod laws;
mod rule2;

pub use laws::{reordered_is_serial, reorders_by_pairs};
pub use rule2::Rule2;
