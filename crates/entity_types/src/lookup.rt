//! What the tables say of a class.

ghost use Rattle.std.specs.Prelude.{◌≡◌, map, slice_get, option_map};
ghost use Rattle.py_tree.specs.PlainTypes.{plain_ty};
ghost use Rattle.py_tree.specs.ExpressionTypes as spec;
ghost use Rattle.entity_tables.specs.Views.{plain_field, plain_sig, plain_table, plain_tables};
ghost use Rattle.entity_types.specs.Views.{plain_wanted};

use entity_tables::{ClassTable, Field, Sig};
use py_tree::{Name, Ty};

/// The table of the class of this name.
#[tactic(auto, unfolding(py_tree::specs::ExpressionTypes::table_named))]
pub fn table_named(tables: &[ClassTable], name: Name) -> Option<&ClassTable>
    ensures { option_map (λ t. plain_table t.now) result ≡ spec.table_named (plain_tables tables.now) name.0 }
{
    for table in tables {
        if table.name.0 == name.0 {
            return Some(table);
        }
    }
    None
}

fn field_in(fields: &[Field], name: Name) -> Option<&Ty>
    ensures { plain_wanted result ≡ spec.field_in (map plain_field fields.now) name.0 }
{
    for field in fields {
        if field.name.0 == name.0 {
            return Some(&field.ty);
        }
    }
    None
}

/// The type of the field of this name, in the class of that number.
#[tactic(auto, unfolding(py_tree::specs::ExpressionTypes::field_of))]
pub fn field_of(tables: &[ClassTable], class: u32, name: Name) -> Option<&Ty>
    ensures { plain_wanted result ≡ spec.field_of (plain_tables tables.now) class name.0 }
{
    let table = tables.get(class as usize)?;
    field_in(table.fields.as_slice(), name)
}

fn method_in(methods: &[Sig], name: Name) -> Option<&Sig>
    ensures { option_map (λ m. plain_sig m.now) result ≡ spec.method_in (map plain_sig methods.now) name.0 }
{
    for method in methods {
        if method.name.0 == name.0 {
            return Some(method);
        }
    }
    None
}

/// The method of this name, in the class of that name.
#[tactic(auto, unfolding(py_tree::specs::ExpressionTypes::method_of))]
pub fn method_of(tables: &[ClassTable], class: Name, name: Name) -> Option<&Sig>
    ensures { option_map (λ m. plain_sig m.now) result ≡ spec.method_of (plain_tables tables.now) class.0 name.0 }
{
    let table = table_named(tables, class)?;
    method_in(table.methods.as_slice(), name)
}

/// The name of the class of this number, or the first name of all where no class has the number.
fn class_name(tables: &[ClassTable], class: u32) -> Name
    ensures { result.0 ≡ spec.name_in (slice_get (plain_tables tables.now) class) }
{
    match tables.get(class as usize) {
        None => Name(0),
        Some(table) => table.name,
    }
}

/// The type of `self`, in the class of this number.
#[tactic(auto, using(py_tree::proofs::Views::ty_views), unfolding(py_tree::specs::ExpressionTypes::self_ty))]
pub fn self_ty(tables: &[ClassTable], class: u32) -> Ty
    ensures { plain_ty result ≡ spec.self_ty (plain_tables tables.now) class }
{
    Ty::Entity(class_name(tables, class))
}
