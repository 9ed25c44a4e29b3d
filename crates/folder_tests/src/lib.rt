//! Tests of a folder of the system as a disk.
#![tactic(auto)]

#[cfg(test)]
mod contents;
#[cfg(test)]
mod filled;
#[cfg(test)]
mod mounts;
