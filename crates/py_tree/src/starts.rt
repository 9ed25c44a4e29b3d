//! What the next token begins, where many parts could begin.

/// What begins an atom.
#[derive(Clone, Copy, PartialEq, Eq, Debug)]
pub enum AtomStart {
    Name,
    Int,
    Str,
    True,
    False,
    Nil,
    /// The bracket of an expression.
    Group,
    /// The bracket of a list.
    List,
    /// No atom begins with it.
    Other,
}

/// What begins a type.
#[derive(Clone, Copy, PartialEq, Eq, Debug)]
pub enum TypeStart {
    Int,
    Bool,
    Str,
    Nil,
    List,
    Optional,
    Name,
    /// A string.
    Quoted,
    /// No type begins with it.
    Other,
}

/// What begins a simple statement.
#[derive(Clone, Copy, PartialEq, Eq, Debug)]
pub enum SimpleStart {
    Pass,
    Break,
    Continue,
    Return,
    Raise,
    Assert,
    /// A name that is assigned.
    Local,
    /// A field that is assigned.
    Field,
    /// An expression, if anything.
    Other,
}
