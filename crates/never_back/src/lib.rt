//! That no block of a compiled program goes back to the first one of its method.
#![tactic(auto)]

mod laws;

pub use laws::{compiled_never_goes_back, split_never_goes_back};
