//! Why a later program may not take over.

ghost use Rattle.std.specs.Prelude.{◌≡◌, Some};
ghost use Rattle.program_upgrade.specs.RuleTexts.{text_of};
ghost use Rattle.program_upgrade.specs.declared.rule.UpgradeError.TheVariants.{Fault as Broken, NoMemory as WantsMemory};

use std::alloc::AllocError;
use std::error::Error as StdError;
use std::fmt;
use thiserror::Error;

/// A rule of an upgrade. Of several that a class breaks, the earliest of these is told.
#[derive(Clone, Copy, PartialEq, Eq, Debug)]
pub enum UpgradeRule {
    /// The later program's class of this number has another name, or isn't there.
    ClassGone,
    /// The fields don't begin the later ones, or the key is another field.
    FieldChanged,
    /// A parameter of `__init__` has another type, or the key comes from another one.
    InitChanged,
    /// The methods don't begin the later ones.
    MethodChanged,
    /// An added field isn't declared with a literal that a value may be.
    NoDefault,
}

impl UpgradeRule {
    /// What the rule is printed as.
    pub fn text(self) -> &'static str
        ensures { result.now ≡ text_of self }
    {
        match self {
            UpgradeRule::ClassGone => "ClassGone",
            UpgradeRule::FieldChanged => "FieldChanged",
            UpgradeRule::InitChanged => "InitChanged",
            UpgradeRule::MethodChanged => "MethodChanged",
            UpgradeRule::NoDefault => "NoDefault",
        }
    }
}

/// A rule with the number of the earlier class that breaks it.
#[derive(Clone, Copy, PartialEq, Eq, Debug)]
pub struct UpgradeFault {
    pub rule: UpgradeRule,
    pub class: u32,
}

impl fmt::Display for UpgradeFault {
    ghost output = { λ fault. Some (text_of fault.rule) };

    fn fmt<W: fmt::Write>(&self, f: &mut fmt::Formatter<W>) -> fmt::Result {
        f.write_str(self.rule.text())
    }
}

impl StdError for UpgradeFault {}

/// Why there is no plan for an upgrade.
#[derive(Clone, Copy, PartialEq, Eq, Debug, Error)]
pub enum UpgradeError {
    #[error("{0}")]
    Fault(UpgradeFault),
    #[error("out of memory")]
    NoMemory,
}

impl From<UpgradeFault> for UpgradeError {
    ghost from_gives = { λ fault error. error ≡ Broken fault };

    fn from(fault: UpgradeFault) -> UpgradeError {
        UpgradeError::Fault(fault)
    }
}

impl From<AllocError> for UpgradeError {
    ghost from_gives = { λ _ error. error ≡ WantsMemory };

    fn from(_error: AllocError) -> UpgradeError {
        UpgradeError::NoMemory
    }
}
