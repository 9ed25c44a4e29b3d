//! What the steps of a transaction come to.

ghost use Rattle.transaction_steps.specs.EnoughBlocks.{EnoughBlocks};
ghost use Rattle.transaction_steps.specs.GoingOn.{TransactionsBegin, TransactionsGoOn, TargetsAreOfFewClasses};

/// A transaction's step runs at most a number of blocks that is always enough: an event that fits,
/// and comes to a step at all, comes to it with so many.
pub fn enough_blocks()
    ensures { EnoughBlocks }
{}

/// The transaction of a request that fits, on a snapshot that fits, fits itself. Its first event
/// weighs at most what a request has steps for.
pub fn transactions_begin()
    ensures { TransactionsBegin }
{}

/// A transaction that fits and isn't over goes on: its next event has a target, and comes to a step on
/// the record of that. What this leaves fits again, and weighs less.
pub fn transactions_go_on()
    ensures { TransactionsGoOn }
{}

/// The target of an event that fits is of one of the program's classes, of which there are at most 256.
pub fn targets_are_of_few_classes()
    ensures { TargetsAreOfFewClasses }
{}
