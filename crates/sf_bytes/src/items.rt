//! Things that stand in lists, and the bytes of their lists.

ghost use Rattle.std.specs.Prelude.{ℕ, List, length, Option, OnOk, OnErr};
ghost use Rattle.std.specs.List.{flat_map, AllByRecursion};
ghost use Rattle.sf_bytes.specs.ByteForms.{number_bytes, list_bytes};
ghost use Rattle.sf_bytes.specs.Reading.{Gives, number_at, items_at, list_at, long_list_at};
ghost use Rattle.sf_bytes.specs.Spelt.{IsSpeltList};

use crate::fault::Unread;
use crate::out::Out;
use crate::reading::{long_of, number_of};
use crate::writing::put_number;
use sf_list::Sequence;
use std::alloc::Global;

/// A thing that stands in lists.
pub(crate) trait Item: Sized + Drop {
    /// What reading gives.
    ghost reads: { List ℕ → Option (Self × List ℕ) };

    /// The bytes of the thing.
    ghost bytes_of: { Self → List ℕ };

    /// Which things have bytes.
    ghost is_spelt: { Self → Type 0 };

    /// What holds of all that a program can hold.
    ghost is_real: { Self → Type 0 };

    fn read(alloc: Global, bytes: &[u8]) -> Result<(Self, &[u8]), Unread>
        ensures { Gives (λ x. (x.0, x.1.now)) result (reads bytes.now) };

    fn put<D, O: Out<D>>(&self, out: &mut O, on: &mut D) -> Result<(), O::Stop>
        requires { is_spelt self.now }
        ensures all { OnOk result (O.puts out.old on.old out.new on.new (bytes_of self.now)) }
        ensures part { OnErr result (O.stops out.old on.old out.new on.new) }
        ensures real { OnOk result (is_real self.now) };
}

fn items_of<T: Item>(
    alloc: Global,
    count: u64,
    bytes: &[u8],
) -> Result<(Sequence<T>, &[u8]), Unread>
    ensures { Gives (λ x. (x.0, x.1.now)) result (items_at T.reads count bytes.now) }
{
    let mut items = Sequence::new(alloc);
    let mut rest = bytes;
    for _ in 0..count {
        let (item, after) = T::read(alloc, rest)?;
        items.push(alloc, item)?;
        rest = after;
    }
    Ok((items, rest))
}

#[tactic(auto, unfolding(crate::specs::Reading::list_at))]
pub(crate) fn list_of<T: Item>(alloc: Global, bytes: &[u8]) -> Result<(Sequence<T>, &[u8]), Unread>
    ensures { Gives (λ x. (x.0, x.1.now)) result (list_at T.reads bytes.now) }
{
    let (count, rest) = number_of(bytes)?;
    items_of(alloc, u64::from(count), rest)
}

#[tactic(auto, unfolding(crate::specs::Reading::long_list_at))]
pub(crate) fn long_list_of<T: Item>(
    alloc: Global,
    bytes: &[u8],
) -> Result<(Sequence<T>, &[u8]), Unread>
    ensures { Gives (λ x. (x.0, x.1.now)) result (long_list_at T.reads bytes.now) }
{
    let (count, rest) = long_of(bytes)?;
    items_of(alloc, count, rest)
}

fn put_items<D, O: Out<D>, T: Item>(out: &mut O, on: &mut D, items: &[T]) -> Result<(), O::Stop>
    requires { AllByRecursion T.is_spelt items.now }
    ensures all { OnOk result (O.puts out.old on.old out.new on.new (flat_map T.bytes_of items.now)) }
    ensures part { OnErr result (O.stops out.old on.old out.new on.new) }
    ensures real { OnOk result (AllByRecursion T.is_real items.now) }
{
    for item in items {
        item.put(out, on)?;
    }
    Ok(())
}

pub(crate) fn put_list<D, O: Out<D>, T: Item>(
    out: &mut O,
    on: &mut D,
    items: &Sequence<T>,
) -> Result<(), O::Stop>
    requires { IsSpeltList T.is_spelt items.now }
    ensures all { OnOk result (O.puts out.old on.old out.new on.new (list_bytes T.bytes_of items.now)) }
    ensures part { OnErr result (O.stops out.old on.old out.new on.new) }
    ensures real { OnOk result (AllByRecursion T.is_real items.now) }
{
    put_number(out, on, items.len() as u32)?;
    put_items(out, on, items.as_slice())
}
