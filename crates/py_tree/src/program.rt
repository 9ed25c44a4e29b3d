//! Classes of entities, with their methods.

use crate::names::{Name, Place};
use crate::stmt::Stmts;
use crate::ty::WrittenTy;
use sf_list::Sequence;

#[derive(Drop)]
pub struct Param {
    pub name: Name,
    pub ty: Option<WrittenTy>,
    pub place: Place,
}

/// The parameters after `self`.
pub type Params = Sequence<Param>;

#[derive(Drop)]
pub struct Method {
    pub name: Name,
    /// The place of its name.
    pub place: Place,
    pub params: Params,
    pub result: Option<WrittenTy>,
    pub body: Stmts,
}

pub type Methods = Sequence<Method>;

#[derive(Drop)]
pub struct Class {
    pub name: Name,
    /// The place of its name.
    pub place: Place,
    /// All that is defined in it, `__init__` and `__key__` among them.
    pub members: Methods,
}

pub type Classes = Sequence<Class>;

#[derive(Drop)]
pub struct Program {
    pub classes: Classes,
}
