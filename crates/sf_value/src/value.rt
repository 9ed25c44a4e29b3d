//! Values, entities and records.

ghost use Rattle.std.specs.Prelude.{◌≡◌, ◌↔◌, IfOk, IsTrue};

use crate::text::Text;
use sf_list::{Sequence, TryClone};
use std::alloc::{AllocError, Global};

/// A value of the language.
pub enum Value {
    /// A whole number from -2^127 to 2^127-1.
    Int(i128),
    Bool(bool),
    Str(Text),
    /// `None`.
    Nil,
    List(Values),
    /// An entity, which need not exist.
    Entity(Ref),
}

/// Gives each owned part to a call of `drop`, so that a function that lets a value go has one step for it.
impl Drop for Value {
    #[cycle(value_drop)]
    fn drop(self) {
        match self {
            Value::Int(_) | Value::Bool(_) | Value::Nil => {}
            Value::Str(text) => drop(text),
            Value::List(items) => drop(items),
            Value::Entity(at) => drop(at),
        }
    }
}

pub type Values = Sequence<Value>;

/// An entity: its class's number, and its key.
#[derive(PartialEq, Eq, Hash, Drop)]
pub struct Ref {
    pub class: u32,
    pub key: Text,
}

/// What an entity holds: its fields in the order of their declarations.
#[derive(Drop)]
pub struct Record {
    pub fields: Values,
}

impl Value {
    /// Whether two values are equal. It takes no memory.
    #[cycle(same)]
    pub fn same(&self, other: &Value) -> bool
        ensures { IsTrue result ↔ (self.now ≡ other.now) }
    {
        match (self, other) {
            (Value::Int(x), Value::Int(y)) => x == y,
            (Value::Bool(x), Value::Bool(y)) => x == y,
            (Value::Str(x), Value::Str(y)) => x.same(y),
            (Value::Nil, Value::Nil) => true,
            (Value::List(xs), Value::List(ys)) => same_all(xs.as_slice(), ys.as_slice()),
            (Value::Entity(x), Value::Entity(y)) => x.same(y),
            _ => false,
        }
    }

    fn copy(&self, alloc: Global) -> Result<Value, AllocError>
        ensures { IfOk result (λ made. made ≡ self.now) }
    {
        match self {
            Value::Int(number) => Ok(Value::Int(*number)),
            Value::Bool(truth) => Ok(Value::Bool(*truth)),
            Value::Str(text) => Ok(Value::Str(text.try_clone(alloc)?)),
            Value::Nil => Ok(Value::Nil),
            Value::List(items) => {
                let mut made = Sequence::new(alloc);
                for item in items.as_slice() {
                    made.push(alloc, item.copy(alloc)?)?;
                }
                Ok(Value::List(made))
            }
            Value::Entity(at) => Ok(Value::Entity(at.try_clone(alloc)?)),
        }
    }
}

#[cycle(same)]
pub(crate) fn same_all(xs: &[Value], ys: &[Value]) -> bool
    ensures { IsTrue result ↔ (xs.now ≡ ys.now) }
{
    if xs.len() != ys.len() {
        return false;
    }
    for (i, x) in xs.iter().enumerate() {
        if !x.same(&ys[i]) {
            return false;
        }
    }
    true
}

impl TryClone for Value {
    ghost is_copy = { λ old made. made ≡ old };

    fn try_clone(&self, alloc: Global) -> Result<Value, AllocError> {
        self.copy(alloc)
    }
}

impl Ref {
    /// Whether two entities are one: the same class and the same key.
    pub fn same(&self, other: &Ref) -> bool
        ensures { IsTrue result ↔ (self.now ≡ other.now) }
    {
        self.class == other.class && self.key.same(&other.key)
    }
}

impl TryClone for Ref {
    ghost is_copy = { λ old made. made ≡ old };

    fn try_clone(&self, alloc: Global) -> Result<Ref, AllocError> {
        Ok(Ref {
            class: self.class,
            key: self.key.try_clone(alloc)?,
        })
    }
}

impl TryClone for Record {
    ghost is_copy = { λ old made. made ≡ old };

    fn try_clone(&self, alloc: Global) -> Result<Record, AllocError> {
        Ok(Record {
            fields: self.fields.try_clone(alloc)?,
        })
    }
}
