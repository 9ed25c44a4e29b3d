//! Expressions, tests and lists of expressions keep the rules where calls come out of them.

ghost use Rattle.typed_hoisting.specs.TypedHoisting.{ExpressionsFit};

/// What runs before an expression keeps the rules on types, and what is left of it has the expression's type behind that; where a
/// test holds, and where it doesn't, at least as much is known as the test shows.
pub fn expressions_fit()
    ensures { ExpressionsFit }
{}
