//! Accepted programs.

ghost use Rattle.std.specs.Prelude.{◌≡◌, ◌<◌, ◌==◌, map, length, nat_eq, IfOk};
ghost use Rattle.std.specs.List.{position_from};
ghost use Rattle.py_tree.specs.PlainProgram.{plain_program, plain_method};
ghost use Rattle.py_tree.specs.Bounded.{IsBounded, HasReserved};
ghost use Rattle.py_tree.specs.Acceptance.{KeepsRules};
ghost use Rattle.py_tree.specs.ClassIndices.{HasPlaces, AreIndices, Keeps};
ghost use Rattle.py_tree.specs.NameTable.{IsTable};

use crate::class_index::{ClassIndex, class_names, indices_of, places_of};
use crate::names::{Name, Names};
use crate::program::{Class, Method, Program};
use indexmap::IndexMap;
use std::alloc::{AllocError, Global};

/// A program with its names that keeps every rule of the language. Its classes, their methods and their
/// fields are found by number, and by name with one look-up by hash.
#[derive(Drop)]
pub struct Checked {
    program: Program,
    names: Names,
    /// The numbers of the classes, by their names.
    classes: IndexMap<u32, usize>,
    /// What is kept of each class.
    indices: Vec<ClassIndex>,
    pub ghost bounded: { ∥ IsBounded names (plain_program program) ∥₁ },
    pub ghost reserved: { ∥ HasReserved names ∥₁ },
    pub ghost rules: { KeepsRules names (plain_program program) },
    pub ghost table: { IsTable names },
    pub ghost has_classes: { HasPlaces classes (map (λ c. c.name) (plain_program program)) },
    pub ghost are_indices: { AreIndices names (plain_program program) indices.items },
}

impl Checked {
    ghost use Rattle.std.specs.Prelude.{slice_get};
    ghost use Rattle.std.specs.Option.{option_map};
    ghost use Rattle.py_tree.specs.ClassRules.{init_of, methods_of, field_names, body_of, key_of};
    ghost use Rattle.py_tree.specs.ClassViews.{numbers_of};
    ghost use Rattle.py_tree.specs.Acceptance.{IsAccepted, class_number, members_at, method_named, method_number};
    ghost use Rattle.py_tree.specs.CheckedViews.{checked_program, checked_names};

    /// An accepted program. The two are kept as they are.
    pub fn new(alloc: Global, program: Program, names: Names) -> Result<Checked, AllocError>
        requires { IsAccepted names (plain_program program) }
        ensures program { IfOk result (λ c. checked_program c ≡ plain_program program) }
        ensures names { IfOk result (λ c. checked_names c ≡ names) }
    {
        // The table tells of its texts, beside how many there are.
        let _count = names.count();
        let class_names = class_names(alloc, program.classes.as_slice())?;
        let classes = places_of(alloc, class_names.as_slice())?;
        let indices = indices_of(alloc, &names, program.classes.as_slice())?;
        Ok(Checked {
            program,
            names,
            classes,
            indices,
        })
    }

    pub fn program(&self) -> &Program
        ensures { plain_program result.now ≡ checked_program self.now }
    {
        &self.program
    }

    pub fn names(&self) -> &Names
        ensures { result.now ≡ checked_names self.now }
    {
        &self.names
    }

    /// What is kept of a class.
    fn index(&self, class: u32) -> Option<&ClassIndex>
        ensures { Keeps (checked_names self.now) (members_at (checked_program self.now) class) result }
    {
        self.indices.get(class as usize)
    }

    /// The number of the class with this name.
    pub fn class_by_name(&self, name: Name) -> Option<u32>
        ensures { result ≡ position_from (λ c. c.name == name.0) 0 (checked_program self.now) }
    {
        let number = self.classes.get(&name.0)?;
        Some(*number as u32)
    }

    /// The number of the class with this name, by its text.
    pub fn class_of(&self, text: &str) -> Option<u32>
        ensures { result ≡ class_number (checked_names self.now) (checked_program self.now) text.now }
    {
        let name = self.names.find(text)?;
        self.class_by_name(name)
    }

    /// The number of the method with this name in a class. `__init__` and `__key__` have none.
    pub fn method_by_name(&self, class: u32, name: Name) -> Option<u32>
        ensures { result ≡ method_named (checked_names self.now) (checked_program self.now) class name.0 }
    {
        let index = self.index(class)?;
        let number = index.numbers.get(&name.0)?;
        Some(*number as u32)
    }

    /// The number of the method with this name in a class, by its text.
    pub fn method_of(&self, class: u32, text: &str) -> Option<u32>
        ensures { result ≡ method_number (checked_names self.now) (checked_program self.now) class text.now }
    {
        let name = self.names.find(text)?;
        self.method_by_name(class, name)
    }

    /// A member of a class, by its place among what the class defines.
    fn member(&self, class: u32, place: usize) -> Option<&Method>
        ensures { option_map (λ m. plain_method m.now) result ≡ slice_get (members_at (checked_program self.now) class) place }
    {
        let class = self.program.classes.get(class as usize)?;
        class.members.get(place)
    }

    /// The method of a class with this number, counted without `__init__` and `__key__`.
    pub fn method(&self, class: u32, number: u32) -> Option<&Method>
        ensures { option_map (λ m. plain_method m.now) result
            ≡ slice_get (methods_of (checked_names self.now) (members_at (checked_program self.now) class)) number }
    {
        let index = self.index(class)?;
        let place = index.methods.get(number as usize)?;
        self.member(class, *place)
    }

    /// The `__init__` of a class.
    pub fn init(&self, class: u32) -> Option<&Method>
        ensures { option_map (λ m. plain_method m.now) result ≡ init_of (checked_names self.now) (members_at (checked_program self.now) class) }
    {
        let index = self.index(class)?;
        self.member(class, index.init?)
    }

    /// The names of the fields of a class, in the order of its records.
    pub fn fields(&self, class: u32) -> &[Name]
        ensures { numbers_of result.now ≡ field_names (body_of (init_of (checked_names self.now) (members_at (checked_program self.now) class))) }
    {
        match self.index(class) {
            Some(index) => index.fields.as_slice(),
            None => &[],
        }
    }

    /// The place of the parameter of `__init__` that gives the key of a class.
    pub fn key_param(&self, class: u32) -> Option<usize>
        ensures { result ≡ option_map (λ k. k.param) (key_of (checked_names self.now) (members_at (checked_program self.now) class)) }
    {
        self.index(class)?.key_param
    }
}
