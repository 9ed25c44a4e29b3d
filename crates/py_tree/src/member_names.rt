//! Names of members that have a meaning of their own, told by their texts.

ghost use Rattle.std.specs.Prelude.{◌≡◌};
ghost use Rattle.py_tree.specs.ClassRules as spec;

use crate::names::{Name, Names};

/// The text of a name, empty for one of another table.
#[tactic(auto, unfolding(crate::specs::ClassRules::text_of))]
pub fn name_text(names: &Names, name: Name) -> &str
    ensures { result.now ≡ spec.text_of names.now name.0 }
{
    if name.0 < names.count() {
        names.text(name)
    } else {
        ""
    }
}

/// Whether a member of this name makes the entities of its class.
#[tactic(auto, unfolding(crate::specs::ClassRules::is_init))]
pub fn is_init(names: &Names, name: Name) -> bool
    ensures { result ≡ spec.is_init names.now name.0 }
{
    name_text(names, name) == "__init__"
}

/// Whether a member of this name tells the key of its class.
#[tactic(auto, unfolding(crate::specs::ClassRules::is_key))]
pub fn is_key(names: &Names, name: Name) -> bool
    ensures { result ≡ spec.is_key names.now name.0 }
{
    name_text(names, name) == "__key__"
}

/// Whether a method of this name is called by name: it's neither `__init__` nor `__key__`.
#[tactic(auto, unfolding(crate::specs::ClassRules::is_called))]
pub fn is_called_by_name(names: &Names, name: Name) -> bool
    ensures { result ≡ spec.is_called names.now name.0 }
{
    !(is_init(names, name) || is_key(names, name))
}
