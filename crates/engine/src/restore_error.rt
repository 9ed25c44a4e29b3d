//! Why what was kept isn't taken.

use std::alloc::AllocError;

/// Why an engine isn't restored, or a batch not replayed.
#[derive(Clone, Copy, PartialEq, Eq, Debug)]
pub enum RestoreError {
    /// What was kept doesn't fit the program, or the core that it is to join.
    Wrong,
    NoMemory,
}

impl From<AllocError> for RestoreError {
    ghost use Rattle.std.specs.Prelude.{◌≡◌};
    ghost use Rattle.engine.specs.declared.restore_error.RestoreError.TheVariants.{NoMemory};

    ghost from_gives = { λ _ error. error ≡ NoMemory };

    fn from(_error: AllocError) -> RestoreError {
        RestoreError::NoMemory
    }
}
