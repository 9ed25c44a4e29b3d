//! Methods that may not suspend stay within the record of their entity: what the marks of an
//! accepted program say of its code.
#![tactic(auto)]

mod laws;

pub use laws::marks_keep_within;
