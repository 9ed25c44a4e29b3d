//! The compiled graph of an accepted program fits it and means it.
#![tactic(auto)]

mod laws;

pub use laws::{accepted_code_keeps_rules, accepted_graph_fits, accepted_graph_means};
