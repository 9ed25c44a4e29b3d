//! Which variables are live at the blocks of a method, and what blocks mean whose parameters are cut to them.
//!
//! The definitions are in `specs/`; what follows from them is in `proofs/`.
#![tactic(auto)]
