//! What a slot begins with.

ghost use Rattle.std.specs.Prelude.{◌≡◌, length, IfOk, IfSome};
ghost use Rattle.sf_bytes.specs.ByteForms.{long_bytes};
ghost use Rattle.sf_outside.specs.Causes.{HasCause};
ghost use Rattle.sf_outside.specs.DiskModel.{of_file, Stays};
ghost use Rattle.snapshot_store.specs.Answers.{SaysGate, SaysNumber};

use crate::OPEN;
use sf_outside::{Disk, Failed, StoreFile};

/// The gate of a slot.
#[derive(Clone, Copy)]
pub(crate) enum Gate {
    /// At most one byte is in the file.
    Alone,
    /// A closed gate, and bytes behind it.
    Closed,
    /// An open one, and bytes behind it.
    Open,
}

/// The gate of a slot.
pub(crate) fn gate_of<D: Disk>(disk: &mut D, slot: StoreFile) -> Result<Gate, Failed>
    ensures answer { IfOk result (λ gate. IfSome (D.facts disk.old).seen (λ now. SaysGate (of_file slot now) gate)) }
    ensures stays { Stays (D.facts disk.old) (D.facts disk.new) }
    ensures cause { HasCause (D.faults disk.old) (D.faults disk.new) result }
    ensures mounts { D.mounts disk.new ≡ D.mounts disk.old }
{
    let mut front = [0; 2];
    let count = disk.read_at(slot, 0, &mut front)?;
    if count < 2 {
        return Ok(Gate::Alone);
    }
    if front[0] == OPEN {
        return Ok(Gate::Open);
    }
    Ok(Gate::Closed)
}

/// The number of eight bytes at a place, or none where the file ends before.
pub(crate) fn number_at<D: Disk>(
    disk: &mut D,
    slot: StoreFile,
    at: u64,
) -> Result<Option<u64>, Failed>
    ensures answer { IfOk result (λ number. IfSome (D.facts disk.old).seen (λ now. SaysNumber (of_file slot now) at number)) }
    ensures stays { Stays (D.facts disk.old) (D.facts disk.new) }
    ensures cause { HasCause (D.faults disk.old) (D.faults disk.new) result }
    ensures mounts { D.mounts disk.new ≡ D.mounts disk.old }
{
    let mut bytes = [0; 8];
    let count = disk.read_at(slot, at, &mut bytes)?;
    if count < 8 {
        return Ok(None);
    }
    Ok(Some(number_of(&bytes)))
}

/// The number whose bytes these are.
#[tactic(auto, unfolding(sf_bytes::specs::ByteForms::long_bytes))]
fn number_of(bytes: &[u8]) -> u64
    requires { length bytes.now ≡ 8 }
    ensures { long_bytes result ≡ bytes.now }
{
    u64::from_be_bytes([
        bytes[0], bytes[1], bytes[2], bytes[3], bytes[4], bytes[5], bytes[6], bytes[7],
    ])
}
