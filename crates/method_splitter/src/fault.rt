//! Why a flat method has no blocks.

ghost use Rattle.std.specs.Prelude.{◌≡◌};
ghost use Rattle.method_splitter.specs.declared.fault.SplitError.TheVariants.{NoMemory as WantsMemory};

use std::alloc::AllocError;

/// Why a flat method can't be split.
#[derive(Clone, Copy, PartialEq, Eq, Debug)]
pub enum SplitError {
    /// More blocks than have a number of 32 bits.
    TooManyBlocks,
    NoMemory,
}

impl From<AllocError> for SplitError {
    ghost from_gives = { λ _ error. error ≡ WantsMemory };

    fn from(_error: AllocError) -> SplitError {
        SplitError::NoMemory
    }
}
