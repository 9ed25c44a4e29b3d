//! Tokens, and the logical lines that they stand on.

use py_tree::Place;
use sf_list::Sequence;

/// What a token is.
#[derive(Clone, Copy, PartialEq, Eq, Debug)]
pub enum TokenKind {
    /// A keyword or a name.
    Word,
    /// A number, with its value.
    Int(i128),
    /// A string, quotes and all.
    Str,
    /// A sign, by its place in the list of signs.
    Sign(u8),
}

/// A token, which spans the bytes `start..end` of its text.
#[derive(Clone, Copy, PartialEq, Eq, Debug)]
pub struct Token {
    pub kind: TokenKind,
    pub start: u32,
    pub end: u32,
    pub place: Place,
}

pub type Tokens = Sequence<Token>;

/// A logical line: how many spaces stand before its first token, and its tokens, of which there is one.
#[derive(Debug, Drop)]
pub struct Line {
    pub column: u32,
    pub tokens: Tokens,
}

pub type Lines = Sequence<Line>;
