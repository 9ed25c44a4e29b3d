//! Tests of the engine with its batches: what lines are answered, which requests each batch commits, and
//! what is told of its events.
#![tactic(auto)]

#[cfg(test)]
mod answers;
#[cfg(test)]
mod places;
#[cfg(test)]
mod turns;
