//! Classes by their names.

ghost use Rattle.std.specs.Prelude.{◌≡◌, map};
ghost use Rattle.py_tree.specs.PlainProgram.{plain_class};
ghost use Rattle.py_tree.specs.ClassRules as spec;

use crate::names::Name;
use crate::program::Class;

/// Whether one of these classes has this name.
#[tactic(auto, unfolding(crate::specs::ClassRules::is_class))]
pub fn has_class(classes: &[Class], name: Name) -> bool
    ensures { result ≡ spec.is_class (map plain_class classes.now) name.0 }
{
    for class in classes {
        if class.name.0 == name.0 {
            return true;
        }
    }
    false
}
