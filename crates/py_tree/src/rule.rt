//! The rules that a program keeps beyond its grammar.

use crate::names::Place;

/// A rule of classes, of the types of expressions, or of statements.
#[derive(Clone, Copy, PartialEq, Eq, Debug)]
pub enum Rule {
    /// The 257th class, method, field, parameter or local of its kind.
    TooMany,
    /// A name that has a meaning of its own.
    ReservedName,
    DuplicateClass,
    DuplicateMember,
    /// A parameter or a method's result without a type.
    MissingAnnotation,
    /// A name in a type that is no class.
    UnknownType,
    /// `Optional` of what has `None` already.
    NestedOptional,
    /// A class without `__init__`, or with one that does more than declare fields.
    InitForm,
    /// A class without `__key__`, or with one that does more than return a field.
    KeyForm,
    UnknownName,
    /// A local that may have no value yet.
    Unassigned,
    /// A field of another entity.
    RemoteField,
    UnknownField,
    /// What may be `None`, where it must not be.
    NoneUse,
    /// An operand of a wrong type.
    Operand,
    UnknownMethod,
    ArgCount,
    /// A value that doesn't fit the type that is wanted.
    Mismatch,
    /// `[]` without a type.
    EmptyListType,
    LocalRetyped,
    /// The key field is assigned.
    KeyAssigned,
    /// `break` or `continue` outside a loop.
    LoopWord,
    MissingReturn,
}

/// A broken rule, and where.
#[derive(Clone, Copy, PartialEq, Eq, Debug)]
pub struct RuleFault {
    pub rule: Rule,
    pub place: Place,
}
