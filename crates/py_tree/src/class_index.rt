//! What is kept of a class, so that its parts are found by number or by hash.

ghost use Rattle.std.specs.Prelude.{◌≡◌, map, option_map, IfOk};
ghost use Rattle.py_tree.specs.PlainProgram.{plain_classes, plain_methods};
ghost use Rattle.py_tree.specs.ClassRules.{init_of, methods_of, body_of, field_names as the_field_names, key_of as the_key_of};
ghost use Rattle.py_tree.specs.ClassViews.{numbers_of};
ghost use Rattle.py_tree.specs.ClassIndices.{HasPlaces, called_places as the_called_places, init_place, IsIndex, AreIndices};

use crate::declarations::declared_names;
use crate::key::{find_init, key_of};
use crate::member_names::{is_called_by_name, is_init};
use crate::names::{Name, Names};
use crate::program::{Class, Method};
use indexmap::IndexMap;
use std::alloc::{AllocError, Global};

/// What is kept of a class.
#[derive(Drop)]
pub(crate) struct ClassIndex {
    /// Where its methods stand among its members, by their numbers.
    pub(crate) methods: Vec<usize>,
    /// The numbers of its methods, by their names.
    pub(crate) numbers: IndexMap<u32, usize>,
    /// Where its `__init__` stands among its members.
    pub(crate) init: Option<usize>,
    /// The place of the parameter of `__init__` that gives the key.
    pub(crate) key_param: Option<usize>,
    /// The names of its fields, in the order of its records.
    pub(crate) fields: Vec<Name>,
}

/// The first place of each of these names, from the last one on, since an earlier place takes a later one's.
pub(crate) fn places_of(alloc: Global, names: &[Name]) -> Result<IndexMap<u32, usize>, AllocError>
    ensures { IfOk result (λ places. HasPlaces places (numbers_of names.now)) }
{
    let mut places = IndexMap::new(alloc);
    let mut at = names.len();
    while at > 0 {
        at -= 1;
        places.insert(names[at].0, at)?;
    }
    Ok(places)
}

/// The names of classes, in their order.
pub(crate) fn class_names(alloc: Global, classes: &[Class]) -> Result<Vec<Name>, AllocError>
    ensures { IfOk result (λ names. numbers_of names.items ≡ map (λ c. c.name) (plain_classes classes.now)) }
{
    let mut names = Vec::new(alloc);
    for class in classes {
        names.push(class.name)?;
    }
    Ok(names)
}

/// Where the methods that are called by name stand among the members.
fn called_places(alloc: Global, names: &Names, members: &[Method]) -> Result<Vec<usize>, AllocError>
    ensures { IfOk result (λ places. places.items ≡ the_called_places names.now 0 (plain_methods members.now)) }
{
    let mut places = Vec::new(alloc);
    for (at, member) in members.iter().enumerate() {
        if is_called_by_name(names, member.name) {
            places.push(at)?;
        }
    }
    Ok(places)
}

/// The names of the methods that are called by name.
fn called_names(alloc: Global, names: &Names, members: &[Method]) -> Result<Vec<Name>, AllocError>
    ensures { IfOk result (λ called. numbers_of called.items ≡ map (λ m. m.name) (methods_of names.now (plain_methods members.now))) }
{
    let mut called = Vec::new(alloc);
    for member in members {
        if is_called_by_name(names, member.name) {
            called.push(member.name)?;
        }
    }
    Ok(called)
}

/// Where the `__init__` stands among the members.
#[tactic(auto, using(crate::proofs::ListWalks::place_laws))]
fn place_of_init(names: &Names, members: &[Method]) -> Option<usize>
    ensures { result ≡ init_place names.now (plain_methods members.now) }
{
    for (at, member) in members.iter().enumerate() {
        if is_init(names, member.name) {
            return Some(at);
        }
    }
    None
}

/// The names of the fields that the `__init__` of these members declares.
fn field_names(alloc: Global, names: &Names, members: &[Method]) -> Result<Vec<Name>, AllocError>
    ensures { IfOk result (λ fields. numbers_of fields.items ≡ the_field_names (body_of (init_of names.now (plain_methods members.now)))) }
{
    match find_init(names, members) {
        Some(init) => declared_names(alloc, init.body.as_slice()),
        None => Ok(Vec::new(alloc)),
    }
}

/// The place of the parameter that gives the key of a class with these members.
fn key_param(names: &Names, members: &[Method]) -> Option<usize>
    ensures { result ≡ option_map (λ k. k.param) (the_key_of names.now (plain_methods members.now)) }
{
    let key = key_of(names, members)?;
    Some(key.param)
}

fn index_of(alloc: Global, names: &Names, members: &[Method]) -> Result<ClassIndex, AllocError>
    ensures { IfOk result (λ index. IsIndex names.now (plain_methods members.now) index) }
{
    let called = called_names(alloc, names, members)?;
    Ok(ClassIndex {
        methods: called_places(alloc, names, members)?,
        numbers: places_of(alloc, called.as_slice())?,
        init: place_of_init(names, members),
        key_param: key_param(names, members),
        fields: field_names(alloc, names, members)?,
    })
}

/// What is kept of each class.
pub(crate) fn indices_of(
    alloc: Global,
    names: &Names,
    classes: &[Class],
) -> Result<Vec<ClassIndex>, AllocError>
    ensures { IfOk result (λ indices. AreIndices names.now (plain_classes classes.now) indices.items) }
{
    let mut indices = Vec::new(alloc);
    for class in classes {
        indices.push(index_of(alloc, names, class.members.as_slice())?)?;
    }
    Ok(indices)
}
