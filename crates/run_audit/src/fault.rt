//! Why an audit gives no verdict.

use std::alloc::AllocError;

#[derive(Clone, Copy, PartialEq, Eq, Debug)]
pub enum AuditFault {
    /// The file can't be read.
    ReadFault,
    /// The file is longer than may be, and as much of it as may be read decides nothing.
    InputTooLong,
    NoMemory,
}

impl From<AllocError> for AuditFault {
    ghost use Rattle.std.specs.Prelude.{◌≡◌};
    ghost use Rattle.run_audit.specs.declared.fault.AuditFault.TheVariants.{NoMemory};

    ghost from_gives = { λ _ fault. fault ≡ NoMemory };

    fn from(_error: AllocError) -> AuditFault {
        AuditFault::NoMemory
    }
}
