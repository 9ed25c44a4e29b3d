//! Reading the record at a place.

ghost use Rattle.std.specs.Prelude.{◌≡◌, ◌+◌, ◌≤◌, ◌^◌, ◌<◌, ◌∷◌, length, IfOk, IfSome, IfErr, IsErrOf, Option, Some, None, Result, Ok, Err};
ghost use Rattle.sf_bytes.specs.ByteForms.{number_bytes, batch_bytes};
ghost use Rattle.sf_bytes.specs.Gates.{open_gate, StandsAt};
ghost use Rattle.sf_bytes.specs.Spelt.{IsReadBatch};
ghost use Rattle.sf_outside.specs.Causes.{Rose};
ghost use Rattle.sf_outside.specs.DiskModel.{of_file, Stays};
ghost use Rattle.sf_value.specs.declared.BatchRecord.{BatchRecord};
ghost use Rattle.request_log.specs.declared.fault.LogFault.TheVariants.{Failed as DiskFailed, Bad};
ghost use Rattle.request_log.specs.LogFile.{gate_behind, IsBatch};
ghost use Rattle.request_log.specs.Answers.{Answers, SaysFront, SaysBatch, IsPlaced};

use crate::OPEN;
use crate::fault::LogFault;
use sf_bytes::read_batch;
use sf_outside::{Disk, StoreFile};
use sf_value::BatchRecord;
use std::alloc::{AllocError, Global};

/// A record, and the place of the gate behind it.
#[derive(Drop)]
pub struct Found {
    pub batch: BatchRecord,
    pub next: u64,
}

/// What a log has at a place.
#[derive(Clone, Copy)]
pub(crate) enum Front {
    Closed,
    /// An open gate, and how many bytes it claims for a batch.
    Claims(u32),
    /// No gate, or an open one and then the end of the file.
    Broken,
}

/// The record at this place, or none where its gate is closed. It takes memory by the bytes that are there.
pub fn next<D: Disk>(
    alloc: Global,
    disk: &mut D,
    file: StoreFile,
    at: u64,
) -> Result<Option<Found>, LogFault>
    ensures answer { IfSome (D.facts disk.old).seen (λ now. Answers (of_file file now) at result) }
    ensures placed { IsPlaced at result }
    ensures stays { Stays (D.facts disk.old) (D.facts disk.new) }
    ensures later { D.faults disk.old ≤ D.faults disk.new }
    ensures cause { IsErrOf result LogFault.Failed → Rose (D.faults disk.old) (D.faults disk.new) }
    ensures mounts { D.mounts disk.new ≡ D.mounts disk.old }
{
    let mut front = [0; 5];
    let count = disk.read_at(file, at, &mut front)?;
    match front_of(&front[..count]) {
        Front::Closed => Ok(None),
        Front::Claims(len) => record_of(alloc, disk, file, at, len),
        Front::Broken => Err(LogFault::Bad { at }),
    }
}

/// What the bytes from a gate on begin with.
fn front_of(bytes: &[u8]) -> Front
    requires { length bytes.now ≤ 5 }
    ensures { SaysFront bytes.now result }
{
    match bytes {
        [OPEN, a, b, c, d] => Front::Claims(u32::from_be_bytes([*a, *b, *c, *d])),
        [OPEN, ..] | [] => Front::Broken,
        _ => Front::Closed,
    }
}

/// The record behind an open gate that claims so many bytes for a batch.
fn record_of<D: Disk>(
    alloc: Global,
    disk: &mut D,
    file: StoreFile,
    at: u64,
    len: u32,
) -> Result<Option<Found>, LogFault>
    requires { IfSome (D.facts disk.old).seen (λ now. StandsAt (of_file file now) at (open_gate ∷ number_bytes len)) }
    ensures answer { IfSome (D.facts disk.old).seen (λ now. Answers (of_file file now) at result) }
    ensures placed { IsPlaced at result }
    ensures stays { Stays (D.facts disk.old) (D.facts disk.new) }
    ensures later { D.faults disk.old ≤ D.faults disk.new }
    ensures cause { IsErrOf result LogFault.Failed → Rose (D.faults disk.old) (D.faults disk.new) }
    ensures mounts { D.mounts disk.new ≡ D.mounts disk.old }
{
    let end = disk.len(file)?;
    if end.saturating_sub(at) < len as u64 + 5 {
        return Err(LogFault::Bad { at });
    }
    let mut body = vec![in alloc; 0; len as usize]?;
    let count = disk.read_at(file, at + 5, &mut body)?;
    if count < body.len() {
        return Err(LogFault::Bad { at });
    }
    match whole_batch(alloc, &body)? {
        Some(batch) => Ok(Some(Found {
            batch,
            next: at + 5 + len as u64,
        })),
        None => Err(LogFault::Bad { at }),
    }
}

/// The batch whose bytes these are, with none left over.
fn whole_batch(alloc: Global, bytes: &[u8]) -> Result<Option<BatchRecord>, AllocError>
    ensures { IfOk result (λ found. SaysBatch bytes.now found) }
{
    let Some((batch, count)) = read_batch(alloc, bytes)? else {
        return Ok(None);
    };
    if count < bytes.len() {
        return Ok(None);
    }
    Ok(Some(batch))
}
