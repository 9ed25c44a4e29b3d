//! Failures by their kinds' numbers.

ghost use Rattle.std.specs.Prelude.{◌≡◌, [], IfOk};
ghost use Rattle.program_meaning.specs.World.{failure};
ghost use Rattle.source_meaning.specs.Agrees.{FailsAs};

use crate::Stop;
use sf_value::{Failure, Text};
use std::alloc::{AllocError, Global};

/// `ZeroDivisionError`.
pub(crate) const ZERO_DIVISION_ERROR: u8 = 1;

/// `IndexError`.
pub(crate) const INDEX_ERROR: u8 = 2;

/// `AssertionError`.
pub(crate) const ASSERTION_ERROR: u8 = 3;

/// `RecursionError`.
pub const RECURSION_ERROR: u8 = 4;

/// `OverflowError`.
pub(crate) const OVERFLOW_ERROR: u8 = 5;

/// `NoEntity`.
pub const NO_ENTITY: u8 = 9;

/// `AlreadyExists`.
pub const ALREADY_EXISTS: u8 = 10;

/// `SizeLimit`.
pub const SIZE_LIMIT: u8 = 11;

/// `StepLimit`.
pub const STEP_LIMIT: u8 = 12;

/// The text without a character.
pub(crate) fn empty_text(alloc: Global) -> Result<Text, AllocError>
    ensures { IfOk result (λ text. text ≡ []) }
{
    Text::of(alloc, "")
}

/// A failure of a kind, without a message.
pub fn bare_failure(alloc: Global, kind: u8) -> Result<Failure, AllocError>
    ensures { IfOk result (λ f. f ≡ failure kind) }
{
    let message = empty_text(alloc)?;
    Ok(Failure { kind, message })
}

/// Why a run stops that fails with a kind, without a message.
pub(crate) fn fail(alloc: Global, kind: u8) -> Stop
    ensures { FailsAs result (failure kind) }
{
    match empty_text(alloc) {
        Ok(message) => Stop::Failed(Failure { kind, message }),
        Err(_) => Stop::NoMemory,
    }
}
