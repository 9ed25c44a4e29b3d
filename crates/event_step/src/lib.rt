//! One event, handled on the record of its entity.
//!
//! A method runs block after block, up to its end or to a call or a creation, where it waits in a
//! frame. Blocks, fields and methods are found by their numbers, and variables move from a frame into
//! the method and on into its next frame.
#![tactic(auto)]

mod blocks;
mod ends;
mod entered;
mod entering;
mod finishing;
mod frames;
mod handling;
mod items;
mod method;
mod parts;
mod resuming;
mod values;

pub use handling::{Handled, handle, target};
