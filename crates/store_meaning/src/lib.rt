//! What the files of a store stand for under a program, as a definition, and what a batch and a checkpoint make of it.
//!
//! A store has a snapshot and the batches that came behind it. Under a program these stand for a core: the snapshot
//! gives one, and each batch in turn makes the next one. What an engine commits goes to the disk before it is told to
//! anyone, so a store that stops at any moment stands for what was told, or for one batch more.
#![tactic(auto)]

mod keeping;
mod laws;
mod position;

pub use engine::{Engine, Planned};
pub use keeping::{keep_head, log_batch};
pub use laws::{
    arrivals_are_not_logged, checkpoint_is_kept, image_has_one_meaning, logged_batch_is_kept,
};
pub use position::Position;
