//! Tests of a store and of what it stands on: bytes, devices in memory, logs, slots, and stores that are found again.
#![tactic(auto)]

#[cfg(test)]
mod bytes;
#[cfg(test)]
mod devices;
#[cfg(test)]
mod images;
#[cfg(test)]
mod kept;
#[cfg(test)]
mod logs;
#[cfg(test)]
mod slots;
#[cfg(test)]
mod stores;
