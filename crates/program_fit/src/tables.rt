//! Classes and methods, by their numbers.

ghost use Rattle.std.specs.Prelude.{◌≡◌, slice_get, option_map, option_and_then};
ghost use Rattle.entity_tables.specs.Views.{plain_sig, plain_table, plain_tables};

use entity_tables::{ClassTable, Sig};

/// The table of the class of this number.
pub(crate) fn table_of(tables: &[ClassTable], class: u32) -> Option<&ClassTable>
    ensures { option_map (λ t. plain_table t.now) result ≡ slice_get (plain_tables tables.now) class }
{
    tables.get(class as usize)
}

/// The method of this number, in the class of that number.
pub(crate) fn method_of(tables: &[ClassTable], class: u32, method: u32) -> Option<&Sig>
    ensures { option_map (λ s. plain_sig s.now) result
        ≡ option_and_then (λ t. slice_get t.methods method) (slice_get (plain_tables tables.now) class) }
{
    let table = table_of(tables, class)?;
    table.methods.get(method as usize)
}
