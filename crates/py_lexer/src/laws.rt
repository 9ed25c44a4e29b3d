//! What the definitions say by themselves.

ghost use Rattle.std.specs.Prelude.{◌≡◌, ℕ, List};
ghost use Rattle.py_lexer.specs.LogicalLines.{Lexed, IsText};

/// A text has one outcome at most: its logical lines, or its first fault.
pub fn has_one_outcome()
    ensures { (text : List ℕ) (one other : Lexed) → IsText text one → IsText text other → one ≡ other }
{}
