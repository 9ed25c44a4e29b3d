//! Why logical lines are no program.

use crate::names::Place;

/// What is wrong with a token.
#[derive(Clone, Copy, PartialEq, Eq, Debug)]
pub enum SyntaxKind {
    /// The part that is being read can't take it.
    Unexpected,
    /// The same, where it is a keyword of what the language leaves out.
    LeftOut,
    /// It would open level 65.
    TooDeep,
}

/// The first token that is refused, by its place. The end of a line stands just past its last token.
#[derive(Clone, Copy, PartialEq, Eq, Debug)]
pub struct SyntaxFault {
    pub place: Place,
    pub kind: SyntaxKind,
}
