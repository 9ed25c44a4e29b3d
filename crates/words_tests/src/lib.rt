//! Tests of the words of a call.
#![tactic(auto)]

#[cfg(test)]
mod counts;
#[cfg(test)]
mod forms;
#[cfg(test)]
mod refusals;
#[cfg(test)]
mod told;
