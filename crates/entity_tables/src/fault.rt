//! Why a program has no tables.

ghost use Rattle.std.specs.Prelude.{◌≡◌};
ghost use Rattle.py_tree.specs.ClassRules.{broken, is_full as as_many};
ghost use Rattle.entity_tables.specs.declared.fault.RuleError.TheVariants.{Fault as Broken, NoMemory as WantsMemory};
ghost use Rattle.entity_tables.specs.Answers.{fault_of};

use py_tree::{Place, Rule, RuleFault};
use std::alloc::AllocError;

/// Why a rule's check has no answer to give.
#[derive(Clone, Copy, PartialEq, Eq, Debug)]
pub enum RuleError {
    Fault(RuleFault),
    NoMemory,
}

impl From<RuleFault> for RuleError {
    ghost from_gives = { λ fault error. error ≡ Broken fault };

    fn from(fault: RuleFault) -> RuleError {
        RuleError::Fault(fault)
    }
}

impl From<AllocError> for RuleError {
    ghost from_gives = { λ _ error. error ≡ WantsMemory };

    fn from(_error: AllocError) -> RuleError {
        RuleError::NoMemory
    }
}

/// How many of a kind there may be: classes, methods, fields, parameters.
const MOST: usize = 256;

/// Whether there are as many of a kind as there may be.
pub fn is_full(count: usize) -> bool
    ensures { result ≡ as_many count }
{
    count >= MOST
}

/// The fault of a rule, where it is broken.
pub(crate) fn refuse(is_broken: bool, rule: Rule, place: Place) -> Result<(), RuleFault>
    ensures { fault_of result ≡ broken rule place is_broken }
{
    if is_broken {
        return Err(RuleFault { rule, place });
    }
    Ok(())
}
