//! Batches, heads, and what these list.

ghost use Rattle.std.specs.Prelude.{◌<◌, ◌^◌, OnOk, OnErr};
ghost use Rattle.sf_bytes.specs.ByteForms.{number_bytes, entry_bytes, held_bytes, batch_bytes};
ghost use Rattle.sf_bytes.specs.Reading.{Gives, number_at, entry_at, held_at, batch_at, extent_at, head_at};
ghost use Rattle.sf_bytes.specs.Spelt.{IsSpeltEntry, IsSpeltHeld, IsSpeltBatch, IsRealEntry, IsRealHeld, IsRealBatch};

use crate::LEVELS;
use crate::fault::Unread;
use crate::items::{Item, list_of, long_list_of, put_list};
use crate::lent::{put_entry, put_held};
use crate::out::Out;
use crate::reading::{long_of, number_of, ref_of, text_of, values_of};
use crate::requests::{outcome_of, request_of};
use crate::writing::put_number;
use sf_value::{BatchRecord, Entry, Head, Held, Record};
use std::alloc::Global;

impl Item for u32 {
    ghost reads = { number_at };

    ghost bytes_of = { number_bytes };

    ghost is_spelt = { λ _. Unit {0} };

    ghost is_real = { λ number. number < 2 ^ 32 };

    fn read(_alloc: Global, bytes: &[u8]) -> Result<(u32, &[u8]), Unread> {
        number_of(bytes)
    }

    fn put<D, O: Out<D>>(&self, out: &mut O, on: &mut D) -> Result<(), O::Stop> {
        put_number(out, on, *self)
    }
}

impl Item for Entry {
    ghost reads = { entry_at };

    ghost bytes_of = { entry_bytes };

    ghost is_spelt = { IsSpeltEntry };

    ghost is_real = { IsRealEntry };

    fn read(alloc: Global, bytes: &[u8]) -> Result<(Entry, &[u8]), Unread> {
        entry_of(alloc, bytes)
    }

    fn put<D, O: Out<D>>(&self, out: &mut O, on: &mut D) -> Result<(), O::Stop> {
        let request = &self.request;
        put_entry(out, on, &request.id, &request.act, &self.outcome)
    }
}

impl Item for Held {
    ghost reads = { held_at };

    ghost bytes_of = { held_bytes };

    ghost is_spelt = { IsSpeltHeld };

    ghost is_real = { IsRealHeld };

    #[tactic(auto, unfolding(crate::specs::Reading::held_at))]
    fn read(alloc: Global, bytes: &[u8]) -> Result<(Held, &[u8]), Unread> {
        let (at, rest) = ref_of(alloc, bytes)?;
        let (fields, rest) = values_of(alloc, LEVELS, rest)?;
        let fields = Record { fields };
        Ok((Held { at, fields }, rest))
    }

    fn put<D, O: Out<D>>(&self, out: &mut O, on: &mut D) -> Result<(), O::Stop> {
        put_held(out, on, &self.at, &self.fields)
    }
}

#[tactic(auto, unfolding(crate::specs::Reading::entry_at))]
pub(crate) fn entry_of(alloc: Global, bytes: &[u8]) -> Result<(Entry, &[u8]), Unread>
    ensures { Gives (λ x. (x.0, x.1.now)) result (entry_at bytes.now) }
{
    let (request, rest) = request_of(alloc, bytes)?;
    let (outcome, rest) = outcome_of(alloc, rest)?;
    Ok((Entry { request, outcome }, rest))
}

#[tactic(auto, unfolding(crate::specs::Reading::batch_at))]
pub(crate) fn batch_of(alloc: Global, bytes: &[u8]) -> Result<(BatchRecord, &[u8]), Unread>
    ensures { Gives (λ x. (x.0, x.1.now)) result (batch_at bytes.now) }
{
    let (news, rest) = list_of(alloc, bytes)?;
    let (committed, rest) = list_of(alloc, rest)?;
    Ok((BatchRecord { news, committed }, rest))
}

/// How many entries a history has, and how many bytes these take.
#[tactic(auto, unfolding(crate::specs::Reading::extent_at))]
fn extent_of(bytes: &[u8]) -> Result<((u32, u64), &[u8]), Unread>
    ensures { Gives (λ x. (x.0, x.1.now)) result (extent_at bytes.now) }
{
    let (kept, rest) = number_of(bytes)?;
    let (size, rest) = long_of(rest)?;
    Ok(((kept, size), rest))
}

#[tactic(auto, unfolding(crate::specs::Reading::head_at))]
pub(crate) fn head_of(alloc: Global, bytes: &[u8]) -> Result<(Head, &[u8]), Unread>
    ensures { Gives (λ x. (x.0, x.1.now)) result (head_at bytes.now) }
{
    let (program, rest) = text_of(alloc, bytes)?;
    let ((kept, bytes), rest) = extent_of(rest)?;
    let (records, rest) = long_list_of(alloc, rest)?;
    let (pending, rest) = list_of(alloc, rest)?;
    let head = Head {
        program,
        kept,
        bytes,
        records,
        pending,
    };
    Ok((head, rest))
}

#[tactic(auto, using(crate::proofs::Lists::all_free), unfolding(crate::specs::ByteForms::batch_bytes))]
pub(crate) fn put_batch<D, O: Out<D>>(
    out: &mut O,
    on: &mut D,
    batch: &BatchRecord,
) -> Result<(), O::Stop>
    requires { IsSpeltBatch batch.now }
    ensures all { OnOk result (O.puts out.old on.old out.new on.new (batch_bytes batch.now)) }
    ensures part { OnErr result (O.stops out.old on.old out.new on.new) }
    ensures real { OnOk result (IsRealBatch batch.now) }
{
    put_list(out, on, &batch.news)?;
    put_list(out, on, &batch.committed)
}
