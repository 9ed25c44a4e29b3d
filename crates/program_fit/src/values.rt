//! Values, by a type.

ghost use Rattle.std.specs.Prelude.{◌↔◌, IsTrue};
ghost use Rattle.py_tree.specs.PlainTypes.{TEntity, plain_ty};
ghost use Rattle.entity_tables.specs.Views.{plain_tables};
ghost use Rattle.program_meaning.specs.Fits.{Fits, AllFit};

use crate::tables::table_of;
use entity_tables::ClassTable;
use py_tree::{Name, Ty};
use sf_value::{Ref, Value};

/// Whether an entity is one of the class of this name. It need not exist.
fn entity_fits(tables: &[ClassTable], class: Name, at: &Ref) -> bool
    ensures { IsTrue result ↔ Fits (plain_tables tables.now) (TEntity class.0) (Value.Entity at.now) }
{
    match table_of(tables, at.class) {
        Some(table) => table.name.0 == class.0,
        None => false,
    }
}

/// Whether each of these values fits the type.
#[cycle(fits)]
fn all_fit(tables: &[ClassTable], element: &Ty, values: &[Value]) -> bool
    ensures { IsTrue result ↔ AllFit (plain_tables tables.now) (plain_ty element.now) values.now }
{
    for value in values {
        if !value_fits(tables, element, value) {
            return false;
        }
    }
    true
}

/// Whether a value fits the type. It takes no memory, and goes as deep as the type.
#[cycle(fits)]
#[tactic(auto, using(py_tree::proofs::Views::ty_views))]
pub fn value_fits(tables: &[ClassTable], ty: &Ty, value: &Value) -> bool
    ensures { IsTrue result ↔ Fits (plain_tables tables.now) (plain_ty ty.now) value.now }
{
    match ty {
        Ty::Int => matches!(value, Value::Int(_)),
        Ty::Bool => matches!(value, Value::Bool(_)),
        Ty::Str => matches!(value, Value::Str(_)),
        Ty::Nil => matches!(value, Value::Nil),
        Ty::List(element) => match value {
            Value::List(items) => all_fit(tables, element, items.as_slice()),
            _ => false,
        },
        Ty::Optional(inner) => match value {
            Value::Nil => true,
            _ => value_fits(tables, inner, value),
        },
        Ty::Entity(class) => match value {
            Value::Entity(at) => entity_fits(tables, *class, at),
            _ => false,
        },
    }
}
