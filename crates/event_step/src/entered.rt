//! A program with its graph, and the method of an entity that runs.

use block_code::{Frames, Graph};
use py_tree::Checked;
use sf_value::Ref;
use std::alloc::Global;

/// A program and its graph.
#[derive(Clone, Copy, Drop)]
pub(crate) struct Code<'a> {
    pub(crate) alloc: Global,
    pub(crate) program: &'a Checked,
    pub(crate) graph: &'a Graph,
}

/// The method of an entity that runs, the number of its transaction, and the frames that wait.
#[derive(Drop)]
pub(crate) struct Entered {
    pub(crate) at: Ref,
    pub(crate) method: u32,
    pub(crate) tx: u32,
    pub(crate) frames: Frames,
}
