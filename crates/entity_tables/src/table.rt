//! What the rules on types and statements, and the compiler, know of a class.

use py_tree::{Name, Ty};
use sf_list::Sequence;

/// A field with the type that it is declared with.
#[derive(Drop)]
pub struct Field {
    pub name: Name,
    pub ty: Ty,
}

/// In the order of their declarations.
pub type Fields = Sequence<Field>;

/// A parameter with its type.
#[derive(Drop)]
pub struct SigParam {
    pub name: Name,
    pub ty: Ty,
}

/// The parameters after `self`.
pub type SigParams = Sequence<SigParam>;

/// A method, as a caller sees it.
#[derive(Drop)]
pub struct Sig {
    pub name: Name,
    pub params: SigParams,
    pub result: Ty,
}

/// The methods but for `__init__` and `__key__`, in text order.
pub type Sigs = Sequence<Sig>;

#[derive(Drop)]
pub struct ClassTable {
    pub name: Name,
    /// The number of the field that holds the key.
    pub key_field: u32,
    /// The number of the parameter of `__init__` that the key is made of.
    pub key_param: u32,
    pub fields: Fields,
    pub methods: Sigs,
    /// The parameters of `__init__`, which are those of a creation.
    pub init: SigParams,
}

/// One table for each class, in text order.
pub type Tables = Sequence<ClassTable>;
