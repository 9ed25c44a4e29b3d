//! Why a text has no logical lines.

ghost use Rattle.std.specs.Prelude.{◌≡◌};
ghost use Rattle.py_lexer.specs.declared.fault.LexError.TheVariants.{Fault as Met, NoMemory as WantsMemory};

use py_tree::Place;
use std::alloc::AllocError;

/// A fault's kind. Of two faults that are met at one point, the earlier of these is reported.
#[derive(Clone, Copy, PartialEq, Eq, Debug)]
pub enum LexKind {
    /// The text has more than 1,048,576 bytes.
    TooLong,
    /// Bytes that aren't UTF-8.
    NotUtf8,
    /// A tab before the first token of a line.
    TabIndent,
    /// A line less deep than the one before it, at a column that isn't open.
    BadDedent,
    /// A backslash in a string that begins no escape.
    BadEscape,
    /// A string without its closing quotes.
    OpenString,
    /// Digits that make no number, or that a letter, an underscore or a dot follows.
    BadNumber,
    /// A number above 2^127 - 1.
    LiteralTooWide,
    /// No token begins here.
    BadCharacter,
    /// The text ends within brackets.
    OpenBracket,
}

/// The first fault of a text, and where it stands.
#[derive(Clone, Copy, PartialEq, Eq, Debug)]
pub struct LexFault {
    pub place: Place,
    pub kind: LexKind,
}

/// Why a text has no logical lines here.
#[derive(Clone, Copy, PartialEq, Eq, Debug)]
pub enum LexError {
    Fault(LexFault),
    NoMemory,
}

impl From<LexFault> for LexError {
    ghost from_gives = { λ fault error. error ≡ Met fault };

    fn from(fault: LexFault) -> LexError {
        LexError::Fault(fault)
    }
}

impl From<AllocError> for LexError {
    ghost from_gives = { λ _ error. error ≡ WantsMemory };

    fn from(_error: AllocError) -> LexError {
        LexError::NoMemory
    }
}
