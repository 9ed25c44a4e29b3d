//! Reading a log from its start to where it ends.

ghost use Rattle.std.specs.Prelude.{◌≡◌, ◌≤◌, IfSome, IsErrOf};
ghost use Rattle.sf_outside.specs.Causes.{Rose};
ghost use Rattle.sf_outside.specs.DiskModel.{of_file, Stays};
ghost use Rattle.recovery.specs.Answers.{AnswersLog, IsPlacedLog};

use crate::opened::{Batches, Placed};
use request_log::{LogFault, next};
use sf_list::Sequence;
use sf_outside::{Disk, StoreFile};
use std::alloc::Global;

/// The batches of a log, and the place of the closed gate behind them.
#[derive(Drop)]
pub(crate) struct Log {
    pub batches: Batches,
    pub at: u64,
}

/// The log in a file. It ends, since each record moves the place on and places have an end.
pub(crate) fn read_log<D: Disk>(
    alloc: Global,
    disk: &mut D,
    file: StoreFile,
) -> Result<Log, LogFault>
    ensures answer { IfSome (D.facts disk.old).seen (λ now. AnswersLog (of_file file now) result) }
    ensures placed { IsPlacedLog result }
    ensures stays { Stays (D.facts disk.old) (D.facts disk.new) }
    ensures later { D.faults disk.old ≤ D.faults disk.new }
    ensures cause { IsErrOf result LogFault.Failed → Rose (D.faults disk.old) (D.faults disk.new) }
    ensures mounts { D.mounts disk.new ≡ D.mounts disk.old }
{
    let mut batches = Sequence::new(alloc);
    let mut at = 0;
    while let Some(found) = next(alloc, disk, file, at)? {
        let placed = Placed {
            at,
            batch: found.batch,
        };
        batches.push(alloc, placed)?;
        at = found.next;
    }
    Ok(Log { batches, at })
}
