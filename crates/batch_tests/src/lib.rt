//! Tests of batches: which of their requests are committed, and what their writes make of the state.
#![tactic(auto)]

#[cfg(test)]
mod reordering;
#[cfg(test)]
mod rule;
#[cfg(test)]
mod state;
#[cfg(test)]
mod works;
