//! Rules that are told where they are broken.

ghost use Rattle.std.specs.Prelude.{◌≡◌};
ghost use Rattle.entity_tables.specs.declared.fault.RuleError.TheVariants.{Fault as Broken};
ghost use Rattle.entity_types.specs.Answers.{Refuses};

use entity_tables::RuleError;
use py_tree::{Place, Rule, RuleFault};

/// The fault of a rule.
pub fn told(rule: Rule, place: Place) -> RuleError
    ensures { result ≡ Broken (record { rule = rule; place = place }) }
{
    RuleError::Fault(RuleFault { rule, place })
}

/// The fault of a rule, where it is broken.
pub fn refuse(is_broken: bool, rule: Rule, place: Place) -> Result<(), RuleError>
    ensures { Refuses is_broken rule place result }
{
    if is_broken {
        return Err(told(rule, place));
    }
    Ok(())
}
