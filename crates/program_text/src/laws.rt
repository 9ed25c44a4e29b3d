//! What the definitions say by themselves.

ghost use Rattle.std.specs.Prelude.{◌≡◌, ◌⊎◌, ℕ, List, Some};
ghost use Rattle.py_tree.specs.declared.rule.RuleFault.{RuleFault};
ghost use Rattle.py_tree.specs.PlainProgram.{PlainProgram};
ghost use Rattle.py_tree.specs.Acceptance.{KeepsRules, rule_fault};
ghost use Rattle.program_text.specs.Readings.{IsAcceptedText, HasFault};
ghost use Rattle.program_text.specs.declared.fault.ProgramFault.{ProgramFault as AFault};

/// A text is accepted with one tree and one table of names, or has one fault, and not both. A tree
/// keeps every rule, or breaks a first one.
pub fn has_one_reading()
    ensures tree { (text : List ℕ) (p q : PlainProgram) (names others : List (List ℕ)) → IsAcceptedText text p names → IsAcceptedText text q others
        → (p ≡ q) × (names ≡ others) }
    ensures fault { (text : List ℕ) (f g : AFault) → HasFault text f → HasFault text g → f ≡ g }
    ensures apart { (text : List ℕ) (p : PlainProgram) (names : List (List ℕ)) (f : AFault) → IsAcceptedText text p names → HasFault text f → ⊥ }
    ensures judged { (p : PlainProgram) (names : List (List ℕ)) → KeepsRules names p ⊎ ((f : RuleFault) × (rule_fault names p ≡ Some f)) }
{}
