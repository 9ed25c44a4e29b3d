//! Why a text is refused.

ghost use Rattle.std.specs.Prelude.{◌≡◌};
ghost use Rattle.program_text.specs.Readings.{place_of, lex_error, syntax_error, rule_error};
ghost use Rattle.program_text.specs.declared.fault.ProgramError.TheVariants.{NoMemory as WantsMemory};

use entity_tables::RuleError;
use py_lexer::{LexError, LexFault};
use py_parser::SyntaxError;
use py_tree::{Place, RuleFault, SyntaxFault};
use std::alloc::AllocError;

/// The first fault of a text.
#[derive(Clone, Copy, PartialEq, Eq, Debug)]
pub enum ProgramFault {
    /// The text has no logical lines.
    Lex(LexFault),
    /// Its lines have no tree.
    Syntax(SyntaxFault),
    /// Its program breaks a rule.
    Rule(RuleFault),
}

impl ProgramFault {
    /// Where it stands in the text.
    pub fn place(self) -> Place
        ensures { result ≡ place_of self }
    {
        match self {
            ProgramFault::Lex(fault) => fault.place,
            ProgramFault::Syntax(fault) => fault.place,
            ProgramFault::Rule(fault) => fault.place,
        }
    }
}

/// Why a text gives no program here.
#[derive(Clone, Copy, PartialEq, Eq, Debug)]
pub enum ProgramError {
    Fault(ProgramFault),
    NoMemory,
}

impl From<AllocError> for ProgramError {
    ghost from_gives = { λ _ error. error ≡ WantsMemory };

    fn from(_error: AllocError) -> ProgramError {
        ProgramError::NoMemory
    }
}

impl From<LexError> for ProgramError {
    ghost from_gives = { λ error made. made ≡ lex_error error };

    fn from(error: LexError) -> ProgramError {
        match error {
            LexError::Fault(fault) => ProgramError::Fault(ProgramFault::Lex(fault)),
            LexError::NoMemory => ProgramError::NoMemory,
        }
    }
}

impl From<SyntaxError> for ProgramError {
    ghost from_gives = { λ error made. made ≡ syntax_error error };

    fn from(error: SyntaxError) -> ProgramError {
        match error {
            SyntaxError::Fault(fault) => ProgramError::Fault(ProgramFault::Syntax(fault)),
            SyntaxError::NoMemory => ProgramError::NoMemory,
        }
    }
}

impl From<RuleError> for ProgramError {
    ghost from_gives = { λ error made. made ≡ rule_error error };

    fn from(error: RuleError) -> ProgramError {
        match error {
            RuleError::Fault(fault) => ProgramError::Fault(ProgramFault::Rule(fault)),
            RuleError::NoMemory => ProgramError::NoMemory,
        }
    }
}
