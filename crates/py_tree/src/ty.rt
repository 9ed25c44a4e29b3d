//! Types, as tables hold them and as a program writes them.

ghost use Rattle.std.specs.Prelude.{◌≡◌, ◌↔◌, IsTrue};
ghost use Rattle.py_tree.specs.PlainTypes.{plain_ty};

use crate::names::{Name, Place};

/// A type.
pub enum Ty {
    Int,
    Bool,
    Str,
    /// The type of `None`.
    Nil,
    List(Box<Ty>),
    Optional(Box<Ty>),
    /// The entities of a class.
    Entity(Name),
}

/// Gives the owned part to a call of `drop`, so that a function that lets a type go has one step for it.
impl Drop for Ty {
    #[cycle(ty_drop)]
    fn drop(self) {
        match self {
            Ty::Int | Ty::Bool | Ty::Str | Ty::Nil | Ty::Entity(_) => {}
            Ty::List(element) => drop(element),
            Ty::Optional(inner) => drop(inner),
        }
    }
}

/// A type as it is written, with the place of its first token.
#[cycle(written)]
#[derive(Drop)]
pub struct WrittenTy {
    pub place: Place,
    pub kind: WrittenKind,
}

/// What is written as a type.
#[cycle(written)]
pub enum WrittenKind {
    Int,
    Bool,
    Str,
    Nil,
    List(Box<WrittenTy>),
    Optional(Box<WrittenTy>),
    /// A name that should be a class's.
    Entity(Name),
}

/// Gives the owned part to a call of `drop`, as for [`Ty`].
impl Drop for WrittenKind {
    #[cycle(written_drop)]
    fn drop(self) {
        match self {
            WrittenKind::Int
            | WrittenKind::Bool
            | WrittenKind::Str
            | WrittenKind::Nil
            | WrittenKind::Entity(_) => {}
            WrittenKind::List(element) => drop(element),
            WrittenKind::Optional(inner) => drop(inner),
        }
    }
}

impl Ty {
    /// Whether both are the same type.
    #[tactic(auto, using(crate::proofs::Views::ty_views))]
    pub fn same(&self, other: &Ty) -> bool
        ensures { IsTrue result ↔ (plain_ty self.now ≡ plain_ty other.now) }
    {
        match (self, other) {
            (Ty::Int, Ty::Int) => true,
            (Ty::Bool, Ty::Bool) => true,
            (Ty::Str, Ty::Str) => true,
            (Ty::Nil, Ty::Nil) => true,
            (Ty::List(a), Ty::List(b)) => a.same(b),
            (Ty::Optional(a), Ty::Optional(b)) => a.same(b),
            (Ty::Entity(a), Ty::Entity(b)) => a.0 == b.0,
            (
                Ty::Int,
                Ty::Bool | Ty::Str | Ty::Nil | Ty::List(_) | Ty::Optional(_) | Ty::Entity(_),
            ) => false,
            (
                Ty::Bool,
                Ty::Int | Ty::Str | Ty::Nil | Ty::List(_) | Ty::Optional(_) | Ty::Entity(_),
            ) => false,
            (
                Ty::Str,
                Ty::Int | Ty::Bool | Ty::Nil | Ty::List(_) | Ty::Optional(_) | Ty::Entity(_),
            ) => false,
            (
                Ty::Nil,
                Ty::Int | Ty::Bool | Ty::Str | Ty::List(_) | Ty::Optional(_) | Ty::Entity(_),
            ) => false,
            (
                Ty::List(_),
                Ty::Int | Ty::Bool | Ty::Str | Ty::Nil | Ty::Optional(_) | Ty::Entity(_),
            ) => false,
            (
                Ty::Optional(_),
                Ty::Int | Ty::Bool | Ty::Str | Ty::Nil | Ty::List(_) | Ty::Entity(_),
            ) => false,
            (
                Ty::Entity(_),
                Ty::Int | Ty::Bool | Ty::Str | Ty::Nil | Ty::List(_) | Ty::Optional(_),
            ) => false,
        }
    }
}
