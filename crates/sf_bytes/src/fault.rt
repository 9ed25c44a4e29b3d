//! Why bytes are not read.

ghost use Rattle.std.specs.Prelude.{◌≡◌, ◌-◌, ◌≤◌, length, Ok, Some, IfOk};
ghost use Rattle.sf_bytes.specs.Reading.{Answers};
ghost use Rattle.sf_bytes.specs.declared.fault.Unread.TheVariants.{NoMemory};

use std::alloc::AllocError;

/// Why no item was read.
#[derive(Drop)]
pub(crate) enum Unread {
    /// Memory ran out.
    NoMemory,
    /// The bytes begin with no item's bytes.
    NoSpelling,
}

impl From<AllocError> for Unread {
    ghost from_gives = { λ _ fault. fault ≡ NoMemory };

    fn from(_fault: AllocError) -> Unread {
        Unread::NoMemory
    }
}

/// What a public reader answers: the item with the number of bytes that it took from the front.
pub(crate) fn answer<T>(
    bytes: &[u8],
    read: Result<(T, &[u8]), Unread>,
) -> Result<Option<(T, usize)>, AllocError>
    requires { IfOk read (λ x. length x.1.now ≤ length bytes.now) }
    ensures { Answers (λ x. (x.0, length bytes.now - length x.1.now)) read.entry result }
{
    match read {
        Ok((item, rest)) => Ok(Some((item, bytes.len() - rest.len()))),
        Err(Unread::NoSpelling) => Ok(None),
        Err(Unread::NoMemory) => Err(AllocError),
    }
}
