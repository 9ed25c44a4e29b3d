//! The names that every table of names begins with.

ghost use Rattle.std.specs.Prelude.{◌≡◌, ◌+◌, ◌<◌, fold, length, map, IfOk, OnOk};
ghost use Rattle.py_tree.specs.NameTable.{with_name};
ghost use Rattle.py_tree.specs.ReservedNames as spec;

use py_tree::Names;
use std::alloc::{AllocError, Global};

const RESERVED: [&str; 18] = [
    "self",
    "int",
    "bool",
    "str",
    "list",
    "List",
    "Optional",
    "len",
    "abs",
    "min",
    "max",
    "range",
    "entity",
    "transactional",
    "stateflow",
    "Exception",
    "ValueError",
    "RuntimeError",
];

/// Gives the table these words, in order.
fn add_all(alloc: Global, names: &mut Names, words: &[&str]) -> Result<(), AllocError>
    requires { length names.old + length words.now < 4294967295 }
    ensures { OnOk result (names.new ≡ fold with_name names.old (map (λ word. word.now) words.now)) }
{
    for word in words {
        names.number(alloc, word)?;
    }
    Ok(())
}

/// The table that every text begins with.
pub fn reserved_names(alloc: Global) -> Result<Names, AllocError>
    ensures { IfOk result (λ names. names ≡ spec.reserved_names) }
{
    let mut names = Names::new(alloc);
    add_all(alloc, &mut names, &RESERVED)?;
    Ok(names)
}
