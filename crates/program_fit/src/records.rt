//! Records, by the fields of their classes.

ghost use Rattle.std.specs.Prelude.{◌↔◌, IsTrue, map};
ghost use Rattle.entity_tables.specs.Views.{plain_field, plain_tables};
ghost use Rattle.program_meaning.specs.Fits.{EachFits, RecordFits};

use crate::tables::table_of;
use crate::values::value_fits;
use entity_tables::{ClassTable, Field};
use sf_value::{Held, Record, Value};

/// Whether there are as many values as fields, and each fits its field.
fn fields_fit(tables: &[ClassTable], fields: &[Field], values: &[Value]) -> bool
    ensures { IsTrue result ↔ EachFits (plain_tables tables.now) (map (λ f. f.ty) (map plain_field fields.now)) values.now }
{
    if fields.len() != values.len() {
        return false;
    }
    for (i, field) in fields.iter().enumerate() {
        if !value_fits(tables, &field.ty, &values[i]) {
            return false;
        }
    }
    true
}

/// Whether a record fits the class of this number.
pub fn record_fits(tables: &[ClassTable], class: u32, fields: &Record) -> bool
    ensures { IsTrue result ↔ RecordFits (plain_tables tables.now) class fields.now.fields }
{
    match table_of(tables, class) {
        Some(table) => fields_fit(tables, table.fields.as_slice(), fields.fields.as_slice()),
        None => false,
    }
}

/// Whether the record of an entity fits the entity's class.
pub fn held_fits(tables: &[ClassTable], held: &Held) -> bool
    ensures { IsTrue result ↔ RecordFits (plain_tables tables.now) held.now.at.class held.now.fields.fields }
{
    record_fits(tables, held.at.class, &held.fields)
}
