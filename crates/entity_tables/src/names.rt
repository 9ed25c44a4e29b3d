//! Names that have a meaning of their own.

ghost use Rattle.std.specs.Prelude.{◌≡◌};
ghost use Rattle.py_tree.specs.ClassRules as spec;

use py_tree::{Name, Names, name_text};

/// How many names are reserved. They are the first of a table.
const RESERVED_COUNT: u32 = 18;

pub fn is_reserved(name: Name) -> bool
    ensures { result ≡ spec.is_reserved name.0 }
{
    name.0 < RESERVED_COUNT
}

/// Whether two underscores stand at both ends of a name.
#[tactic(auto, unfolding(py_tree::specs::ClassRules::is_dunder))]
pub fn is_dunder(names: &Names, name: Name) -> bool
    ensures { result ≡ spec.is_dunder (spec.text_of names.now name.0) }
{
    let text = name_text(names, name).as_bytes();
    text.starts_with(b"__") && text.ends_with(b"__")
}
