//! Where a statement stands.

ghost use Rattle.std.specs.Prelude.{◌≡◌, true};

use entity_tables::Tables;
use py_tree::Names;

/// The tables of a program, its names, and whether a loop is around a statement.
#[derive(Clone, Copy)]
pub struct Context<'a> {
    pub tables: &'a Tables,
    pub names: &'a Names,
    pub in_loop: bool,
}

impl<'a> Context<'a> {
    /// Within the body of a loop.
    pub fn within_loop(&self) -> Context<'a>
        ensures tables { result.tables.now ≡ self.now.tables.now }
        ensures names { result.names.now ≡ self.now.names.now }
        ensures in_loop { result.in_loop ≡ true }
    {
        Context {
            tables: self.tables,
            names: self.names,
            in_loop: true,
        }
    }
}
