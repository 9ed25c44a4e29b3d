//! Where code runs.

ghost use Rattle.std.specs.Prelude.{◌≡◌, map};
ghost use Rattle.program_meaning.specs.ClassTables.{fields_of};
ghost use Rattle.program_meaning.specs.Sources.{source_of};

use crate::records::Records;
use py_tree::{Checked, Name};
use sf_value::Ref;
use std::alloc::Global;

/// How many calls and creations may be open at once in a request, its own among them.
pub const DEPTH_LIMIT: u32 = 64;

/// What calls and creations may do.
#[derive(Clone, Copy, Drop)]
pub(crate) enum Room {
    /// Nothing: each fails.
    Closed,
    /// Calls reach methods of the own entity alone, and creations nothing; so many more calls may be open.
    Within(u32),
    /// So many more calls may be open.
    Open(u32),
}

/// A program, the records that the code began with, the entity whose code runs, the names of its fields, and what calls may do there.
#[derive(Drop)]
pub(crate) struct Site<'a> {
    pub(crate) alloc: Global,
    pub(crate) program: &'a Checked,
    pub(crate) state: &'a Records<'a>,
    pub(crate) me: &'a Ref,
    pub(crate) fields: &'a [Name],
    pub(crate) room: Room,
    pub(crate) ghost own_fields: { map (λ x. x.0) fields.now ≡ fields_of (source_of program.now) me.now.class },
}
