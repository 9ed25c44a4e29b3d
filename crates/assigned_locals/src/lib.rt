//! Code that breaks no rule depends on the locals that are surely assigned, and on no others.
#![tactic(auto)]

mod laws;

pub use laws::only_assigned_locals_are_read;
