//! Tests of flat methods, of the blocks out of them, and of the operators that serve entities.
#![tactic(auto)]

#[cfg(test)]
mod flat_text;
#[cfg(test)]
mod hoist;
#[cfg(test)]
mod operators;
#[cfg(test)]
mod split;
