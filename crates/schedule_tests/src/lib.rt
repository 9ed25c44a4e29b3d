//! Tests of `run` in batches: what is answered and traced of each, that no schedule and no number of partitions changes a byte, and what
//! a watch is told.
#![tactic(auto)]

#[cfg(test)]
mod batches;
#[cfg(test)]
mod schedules;
#[cfg(test)]
mod told_runs;
