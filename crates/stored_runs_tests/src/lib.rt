//! Tests of `run --store`: what a store holds to the byte, what a run finds in it again, and what it says of one that it can't use; and
//! what `export` prints of it.
#![tactic(auto)]

#[cfg(test)]
mod bad_stores;
#[cfg(test)]
mod changed_bytes;
#[cfg(test)]
mod exports;
#[cfg(test)]
mod faults;
#[cfg(test)]
mod keeping;
#[cfg(test)]
mod runs;
#[cfg(test)]
mod stops;
