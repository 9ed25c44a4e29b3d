//! A folder of the system as the disk of a store.
#![tactic(auto)]

mod file_access;
mod folder;
mod open_files;
#[cfg(test)]
mod slow_files;

pub use folder::Folder;
