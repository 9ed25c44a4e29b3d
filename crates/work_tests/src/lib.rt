//! Tests of generated work.
#![tactic(auto)]

#[cfg(test)]
mod bank;
#[cfg(test)]
mod calls;
#[cfg(test)]
mod generated;
#[cfg(test)]
mod runs;
#[cfg(test)]
mod totals;
