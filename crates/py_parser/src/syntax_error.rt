//! Why lines give no program here.

ghost use Rattle.std.specs.Prelude.{◌≡◌};
ghost use Rattle.py_parser.specs.declared.syntax_error.SyntaxError.TheVariants.{Fault as Met, NoMemory as WantsMemory};

use py_tree::SyntaxFault;
use std::alloc::AllocError;

/// Why lines give no program here.
#[derive(Clone, Copy, PartialEq, Eq, Debug)]
pub enum SyntaxError {
    Fault(SyntaxFault),
    NoMemory,
}

impl From<SyntaxFault> for SyntaxError {
    ghost from_gives = { λ fault error. error ≡ Met fault };

    fn from(fault: SyntaxFault) -> SyntaxError {
        SyntaxError::Fault(fault)
    }
}

impl From<AllocError> for SyntaxError {
    ghost from_gives = { λ _ error. error ≡ WantsMemory };

    fn from(_error: AllocError) -> SyntaxError {
        SyntaxError::NoMemory
    }
}
