//! The record of a batch, which goes to the log before the batch is committed.

ghost use Rattle.std.specs.Prelude.{◌≡◌, ◌≤◌, ◌<◌, ◌^◌, ◌⊎◌, length, IfOk, OnOk, OnErr};
ghost use Rattle.sf_outside.specs.Causes.{Rose};
ghost use Rattle.byte_sizes.specs.Sizes.{batch_size};
ghost use Rattle.byte_sizes.specs.Spelt.{IsSpeltBatch};
ghost use Rattle.request_log.specs.LogFile.{IsBatch};
ghost use Rattle.store_meaning.specs.Vocabulary.{after_batch, CoreFits, core_of, source_of, tables_of, IsPlanOf};
ghost use Rattle.store_meaning.specs.Engines.{logged_of};
ghost use Rattle.session_store.specs.Cycles.{cycle_of};
ghost use Rattle.session_store.specs.Endings.{LeavesMeanwhile};
ghost use Rattle.session_store.specs.Stores.{Keeps, LeavesEither, IsRecordFor, RecordEndsPast};

use crate::store::Store;
use sf_bytes::write_batch;
use sf_outside::{Disk, Failed};
use sf_value::Bytes;
use std::alloc::{AllocError, Global};
use store_meaning::{Engine, Planned, log_batch};

/// The bytes of the record of a plan, where there is a store.
pub fn record_bytes(
    alloc: Global,
    store: &Option<Store>,
    planned: &Planned,
) -> Result<Option<Bytes>, AllocError>
    requires spelt { IsSpeltBatch planned.now.batch }
    ensures { IfOk result (IsRecordFor store.now planned.now.batch) }
{
    match store {
        Some(_) => Ok(Some(write_batch(alloc, &planned.batch)?)),
        None => Ok(None),
    }
}

/// Adds the record of a plan to the log, where there is a store. It takes no memory.
///
/// After a fault the disk may go on to leave the core before the batch or the one behind it.
pub fn log_planned<D: Disk>(
    disk: &mut D,
    store: &mut Option<Store>,
    engine: &Engine,
    planned: &Planned,
    bytes: &Option<Bytes>,
) -> Result<(), Failed>
    requires plan { IsPlanOf engine.now planned.now }
    requires fits { CoreFits (tables_of engine.now) (core_of engine.now) }
    requires some { 1 ≤ length planned.now.batch.committed }
    requires short { batch_size planned.now.batch < 2 ^ 32 }
    requires is_record { IsRecordFor store.old planned.now.batch bytes.now }
    requires kept { Keeps store.old (source_of engine.now) (logged_of engine.now) (D.facts disk.old) }
    ensures logged { OnOk result (Keeps store.new (source_of engine.now)
        (after_batch (source_of engine.now) (core_of engine.now) planned.now.batch.committed) (D.facts disk.new)) }
    ensures leaves { OnErr result (LeavesEither store.new (source_of engine.now) (logged_of engine.now)
        (after_batch (source_of engine.now) (core_of engine.now) planned.now.batch.committed) (D.facts disk.new)) }
    ensures moments { LeavesMeanwhile store.old (source_of engine.now) (logged_of engine.now)
        (after_batch (source_of engine.now) (core_of engine.now) planned.now.batch.committed) (D.facts disk.old) (D.facts disk.new) }
    ensures cycle { cycle_of store.new ≡ cycle_of store.old }
    ensures later { D.faults disk.old ≤ D.faults disk.new }
    ensures cause { OnErr result (Rose (D.faults disk.old) (D.faults disk.new)
        ⊎ (RecordEndsPast store.new planned.now.batch × Keeps store.new (source_of engine.now) (logged_of engine.now) (D.facts disk.new))) }
    ensures mounts { D.mounts disk.new ≡ D.mounts disk.old }
{
    match store {
        Some(store) => match bytes {
            Some(body) => log_body(disk, store, engine, planned, body),
            None => Ok(()),
        },
        None => Ok(()),
    }
}

/// Adds the record whose bytes these are.
fn log_body<D: Disk>(
    disk: &mut D,
    store: &mut Store,
    engine: &Engine,
    planned: &Planned,
    body: &Bytes,
) -> Result<(), Failed>
    requires plan { IsPlanOf engine.now planned.now }
    requires fits { CoreFits (tables_of engine.now) (core_of engine.now) }
    requires some { 1 ≤ length planned.now.batch.committed }
    requires short { batch_size planned.now.batch < 2 ^ 32 }
    requires body { IsBatch body.now planned.now.batch }
    requires kept { Keeps (Some store.old) (source_of engine.now) (logged_of engine.now) (D.facts disk.old) }
    ensures logged { OnOk result (Keeps (Some store.new) (source_of engine.now)
        (after_batch (source_of engine.now) (core_of engine.now) planned.now.batch.committed) (D.facts disk.new)) }
    ensures leaves { OnErr result (LeavesEither (Some store.new) (source_of engine.now) (logged_of engine.now)
        (after_batch (source_of engine.now) (core_of engine.now) planned.now.batch.committed) (D.facts disk.new)) }
    ensures moments { LeavesMeanwhile (Some store.old) (source_of engine.now) (logged_of engine.now)
        (after_batch (source_of engine.now) (core_of engine.now) planned.now.batch.committed) (D.facts disk.old) (D.facts disk.new) }
    ensures cycle { cycle_of (Some store.new) ≡ cycle_of (Some store.old) }
    ensures later { D.faults disk.old ≤ D.faults disk.new }
    ensures cause { OnErr result (Rose (D.faults disk.old) (D.faults disk.new)
        ⊎ (RecordEndsPast (Some store.new) planned.now.batch × Keeps (Some store.new) (source_of engine.now) (logged_of engine.now) (D.facts disk.new))) }
    ensures mounts { D.mounts disk.new ≡ D.mounts disk.old }
{
    store.position = log_batch(disk, store.position, body.as_slice())?;
    Ok(())
}
