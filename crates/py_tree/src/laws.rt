//! What the grammar says by itself.

ghost use Rattle.std.specs.Prelude.{◌≡◌, ◌≤◌, ℕ, List};
ghost use Rattle.py_tree.specs.Bounded.{tokens_of, IsBounded, HasReserved};
ghost use Rattle.py_tree.specs.Tokens.{PlainLine};
ghost use Rattle.py_tree.specs.PlainProgram.{PlainProgram};
ghost use Rattle.py_tree.specs.Grammar.{Parse, has_tree, IsProgram};

/// Logical lines have one outcome at most: a program with its names, or a first refused token.
pub fn has_one_outcome()
    ensures { (lines : List PlainLine) (one other : Parse) → IsProgram lines one → IsProgram lines other → one ≡ other }
{}

/// The program of lines with 2^20 tokens at most is bounded, and its names begin with the reserved
/// ones.
pub fn has_bounded_program()
    ensures { (lines : List PlainLine) (program : PlainProgram) (names : List (List ℕ)) → IsProgram lines (has_tree program names)
        → tokens_of lines ≤ 1048576 → IsBounded names program × HasReserved names }
{}
