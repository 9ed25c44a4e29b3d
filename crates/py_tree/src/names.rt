//! Names by number, the table that numbers them, and places in a text.

ghost use Rattle.std.specs.Prelude.{◌≡◌, ◌<◌, [], length, slice_get, option_map, Some, IfOk, OnOk, OnErr};
ghost use Rattle.py_tree.specs.NameTable.{place_of, with_name, IsTable};

use indexmap::IndexSet;
use std::alloc::{AllocError, Global};
use std::marker::Model;

/// A name, by its number in a table of names.
#[derive(Clone, Copy, PartialEq, Eq, Debug)]
pub struct Name(pub u32);

/// Where something begins in a text: lines count from 1, and a column is 1 plus the bytes before it
/// on its line.
#[derive(Clone, Copy, PartialEq, Eq, Debug)]
pub struct Place {
    pub line: u32,
    pub col: u32,
}

/// A name with a place of its own.
#[derive(Clone, Copy, PartialEq, Eq, Debug)]
pub struct PlacedName {
    pub name: Name,
    pub place: Place,
}

/// A table of names. Each text in it has one number, in the order in which the texts came in.
#[derive(Drop)]
pub struct Names {
    texts: IndexSet<String>,
}

impl Model for Names {
    ghost use Rattle.std.specs.Prelude.{List, ℕ, map, string_bytes};
    ghost use Rattle.std.specs.Coded.{coded_list, coded_ℕ};
    ghost use Rattle.py_tree.specs.NameTable.{IsTable};

    ghost Value = { List (List ℕ) };

    ghost coded = { coded_list (coded_list coded_ℕ) };

    ghost view = { λ names. map string_bytes names.texts.keys };

    ghost invariant = { λ names. IsTable (map string_bytes names.texts.keys) };
}

impl Names {
    /// The table without names, which takes no memory.
    pub fn new(alloc: Global) -> Names
        ensures { result ≡ [] }
    {
        Names {
            texts: IndexSet::new(alloc),
        }
    }

    /// How many names there are. A name with this number or a greater one has no text here.
    pub fn count(&self) -> u32
        ensures count { result ≡ length self.now }
        ensures table { IsTable self.now }
    {
        self.texts.len() as u32
    }

    /// The name with this text, if there is one.
    pub fn find(&self, text: &str) -> Option<Name>
        ensures place { option_map (λ name. name.0) result ≡ place_of self.now text.now }
        ensures table { IsTable self.now }
    {
        let place = self.texts.get_index_of(text)?;
        Some(Name(place as u32))
    }

    /// The name with this text, which is put at the end where it isn't there.
    pub fn number(&mut self, alloc: Global, text: &str) -> Result<Name, AllocError>
        requires { length self.old < 4294967295 }
        ensures place { IfOk result (λ name. place_of self.new text.now ≡ Some name.0) }
        ensures with_name { OnOk result (self.new ≡ with_name self.old text.now) }
        ensures err { OnErr result (self.new ≡ self.old) }
    {
        if let Some(name) = self.find(text) {
            return Ok(name);
        }
        let next = self.count();
        self.texts.insert(text.to_string(alloc)?)?;
        Ok(Name(next))
    }

    /// The text of a name of this table.
    pub fn text(&self, name: Name) -> &str
        requires { name.0 < length self.now }
        ensures { slice_get self.now name.0 ≡ Some result.now }
    {
        self.texts.as_slice()[name.0 as usize].as_str()
    }
}
