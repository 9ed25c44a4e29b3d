//! The bank's text is accepted.

ghost use Rattle.bank_text.specs.BankAccepted.{BankIsAccepted, BankHasNoFault};

/// The text that `work_gen` gives out as the bank's program has logical lines, these have a tree, and
/// that keeps every rule. So no fault is that text's.
pub fn bank_is_accepted()
    ensures accepted { BankIsAccepted }
    ensures no_fault { BankHasNoFault }
{}
