//! Numbers of names.

ghost use Rattle.std.specs.Prelude.{◌≡◌, ◌+◌, ◌<◌, ◌≤◌, length, IfOk, OnOk, OnErr};
ghost use Rattle.py_tree.specs.NameTable.{with_name};
ghost use Rattle.py_tree.specs.Reading.{number_of};

use py_tree::{Name, Names};
use std::alloc::{AllocError, Global};

/// The number of a text, which is put at the table's end where it isn't there.
#[tactic(auto, using(crate::proofs::Tables::table_rules))]
pub fn numbered(alloc: Global, names: &mut Names, text: &str) -> Result<Name, AllocError>
    requires { length names.old < 4294967295 }
    ensures name { IfOk result (λ name. name.0 ≡ number_of names.old text.now) }
    ensures with_name { OnOk result (names.new ≡ with_name names.old text.now) }
    ensures grown { length names.new ≤ length names.old + 1 }
    ensures err { OnErr result (names.new ≡ names.old) }
{
    names.number(alloc, text)
}
