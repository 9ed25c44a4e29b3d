//! When the core of an engine can be written to a store, as a definition, and that it always can: behind each arrival of a request and behind each batch.
//!
//! A store's writer asks that what it writes has a spelling: texts and lists that can be counted, lists that nest no deeper than may be read. What a line
//! asks has one, and so has what an accepted program makes of it.
//!
//! And that what a core holds stays real: each int is one of 128 bits, and each text is of Unicode's characters.
#![tactic(auto)]

mod laws;

pub use laws::{cores_stay_real, cores_stay_storable, storable_cores_are_spelt};
