//! What flat methods mean.

ghost use Rattle.hoisting.specs.HoistMethods.{FlatMethodsMean, FlatMethodsAreFlat, FlatByMarks};

/// The flat method means the method: for every state, arguments, steps and open calls both come to the
/// same outcome, with the same state, reads, writes and steps left.
pub fn flat_methods_mean()
    ensures { FlatMethodsMean }
{}

/// The flat method is flat, where a call that stays is on `self`: nothing in it suspends but calls and
/// creations that are statements of their own, over parts that don't suspend. By the marks of a program
/// it is so.
pub fn flat_methods_are_flat()
    ensures on_self { FlatMethodsAreFlat }
    ensures by_marks { FlatByMarks }
{}
