//! What code that breaks no rule reads of its locals.

ghost use Rattle.program_meaning.specs.Calls.{InEachWorld};
ghost use Rattle.assigned_locals.specs.AssignedLocals.{ExpressionsReadAssigned, ArgumentsReadAssigned, StatementsReadAssigned};

/// Where each local that is surely assigned has the same value in two lists of locals, an expression
/// that has a type gives the same, and so do arguments that fit; statements that break no rule end
/// alike, with locals that agree on what is surely assigned there.
pub fn only_assigned_locals_are_read()
    ensures expressions { InEachWorld ExpressionsReadAssigned }
    ensures arguments { InEachWorld ArgumentsReadAssigned }
    ensures statements { InEachWorld StatementsReadAssigned }
{}
