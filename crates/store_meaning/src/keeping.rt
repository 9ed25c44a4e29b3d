//! Keeping a core on a disk: the record of a batch, and a checkpoint.

ghost use Rattle.std.specs.Prelude.{◌≡◌, ◌⊎◌, ◌+◌, ◌^◌, ◌<◌, ◌≤◌, length, IfOk, OnOk, OnErr, IsErr};
ghost use Rattle.sf_bytes.specs.Counting.{IsSizeOf};
ghost use Rattle.sf_bytes.specs.Heads.{IsHead};
ghost use Rattle.sf_outside.specs.Causes.{Rose};
ghost use Rattle.sf_value.specs.declared.BatchRecord.{BatchRecord};
ghost use Rattle.sf_value.specs.declared.heads.Head.{Head};
ghost use Rattle.request_log.specs.LogFile.{IsBatch};
ghost use Rattle.store_meaning.specs.Checkpoints.{next_of};
ghost use Rattle.store_meaning.specs.Keeping.{KeepsSome, KeepsBatch, LeavesBatch, KeepsCheckpoint, LeavesCheckpoint};
ghost use Rattle.store_meaning.specs.LoggedBatches.{behind};

use crate::position::Position;
use request_log::append;
use sf_bytes::{Measured, Spelled};
use sf_outside::{Disk, Failed};
use snapshot_store::{checkpoint_of, log_of};

/// Adds the record of a batch whose bytes these are, and gives where the store is then.
///
/// After a fault the disk may go on to leave the core before the batch or the one behind it.
pub fn log_batch<D: Disk>(disk: &mut D, position: Position, body: &[u8]) -> Result<Position, Failed>
    requires some { KeepsSome (D.facts disk.old) position }
    requires began { 1 ≤ position.epoch }
    requires body { (batch : BatchRecord) × IsBatch body.now batch }
    requires short { length body.now < 2 ^ 32 }
    ensures next { IfOk result (λ next. next ≡ behind position body.now) }
    ensures kept { OnOk result (KeepsBatch (D.facts disk.old) (D.facts disk.new) position body.now) }
    ensures moments { LeavesBatch (D.facts disk.old) (D.facts disk.new) position body.now }
    ensures past_end { 2 ^ 62 < position.at + 6 + length body.now → IsErr result × (disk.new ≡ disk.old) }
    ensures later { D.faults disk.old ≤ D.faults disk.new }
    ensures cause { OnErr result (Rose (D.faults disk.old) (D.faults disk.new) ⊎ (2 ^ 62 < position.at + 6 + length body.now)) }
    ensures mounts { D.mounts disk.new ≡ D.mounts disk.old }
{
    let at = append(disk, log_of(position.epoch), position.at, body)?;
    Ok(Position { at, ..position })
}

/// Keeps a head under the next epoch, behind so much more of the history, and gives where the store is then. Both are written as they are
/// spelled, and the head has so many entries.
///
/// After a fault the disk may go on to leave the core before or the new one.
pub fn keep_head<D: Disk, M: Spelled, B: Spelled>(
    disk: &mut D,
    position: Position,
    more: &Measured<'_, M>,
    body: &Measured<'_, B>,
    kept: u32,
) -> Result<Position, Failed>
    requires some { KeepsSome (D.facts disk.old) position }
    requires next { position.epoch + 1 < 2 ^ 63 }
    requires more { M.is_spelt more.now.spelled.now × IsSizeOf more.now.size (M.bytes_of more.now.spelled.now) }
    requires spelt { B.is_spelt body.now.spelled.now × IsSizeOf body.now.size (B.bytes_of body.now.spelled.now) }
    requires body { (head : Head) × IsHead (B.bytes_of body.now.spelled.now) head }
    ensures next { IfOk result (λ next. next ≡ next_of position (length (M.bytes_of more.now.spelled.now)) kept) }
    ensures kept { OnOk result (KeepsCheckpoint (D.facts disk.old) (D.facts disk.new) position
        (M.bytes_of more.now.spelled.now) (B.bytes_of body.now.spelled.now)) }
    ensures moments { LeavesCheckpoint (D.facts disk.old) (D.facts disk.new) position
        (M.bytes_of more.now.spelled.now) (B.bytes_of body.now.spelled.now) }
    ensures past_end { 2 ^ 62 < 17 + length (B.bytes_of body.now.spelled.now) → IsErr result × (disk.new ≡ disk.old) }
    ensures history_past_end { 2 ^ 62 < position.bytes + length (M.bytes_of more.now.spelled.now) → IsErr result × (disk.new ≡ disk.old) }
    ensures later { D.faults disk.old ≤ D.faults disk.new }
    ensures cause { OnErr result (Rose (D.faults disk.old) (D.faults disk.new)
        ⊎ ((2 ^ 62 < 17 + length (B.bytes_of body.now.spelled.now)) ⊎ (2 ^ 62 < position.bytes + length (M.bytes_of more.now.spelled.now)))) }
    ensures mounts { D.mounts disk.new ≡ D.mounts disk.old }
{
    let epoch = position.epoch + 1;
    checkpoint_of(disk, epoch, position.bytes, more, body)?;
    Ok(Position {
        epoch,
        at: 0,
        bytes: position.bytes + more.size,
        kept,
    })
}
