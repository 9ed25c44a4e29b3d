//! The rule that reorders a batch: one pass over its requests, with the least reader and writer of each entity so far.

ghost use Rattle.std.specs.Prelude.{◌≡◌, ◌<◌, ◌^◌, [], ◌∷◌, ◌++◌, if◌then◌else◌, length, reverse, IfOk, OnOk};
ghost use Rattle.std.specs.FinMap as finite;
ghost use Rattle.std.specs.List.{list_any};
ghost use Rattle.reservations.specs.Accesses.{accesses_of};
ghost use Rattle.batch_reorder.specs.Reordering.{reordered};
ghost use Rattle.batch_reorder.specs.ReorderingLaws.{reordered_is_lawful};
ghost use Rattle.batch_reorder.specs.Turns.{is_taken, waits, goes_first, Grows, IsNoted, order_of, IsPlaced};

use keyed_state::{Work, Works};
use reservations::{Choice, CommitRule, Table};
use sf_list::Sequence;
use sf_value::{Places, Ref};
use std::alloc::{AllocError, Global};

/// The rule that reorders, in the manner of Aria (Lu et al., VLDB 2020). A request is committed exactly
/// where it writes nothing that an earlier one of the batch writes, and doesn't both read what an
/// earlier one writes and write what an earlier one reads. One that reads what a committed one before
/// it writes is committed before all of these, any other behind them.
#[derive(Drop)]
pub struct Rule2;

impl Rule2 {
    /// The rule. It takes no memory.
    pub fn new() -> Rule2 {
        Rule2
    }
}

impl CommitRule for Rule2 {
    ghost choice = { λ rule batch. reordered batch };

    ghost lawful = { λ rule batch few. reordered_is_lawful batch };

    fn choose(&self, alloc: Global, works: &Works) -> Result<Choice, AllocError> {
        choose_all(alloc, works.as_slice())
    }
}

/// What the requests before one of a batch have touched.
#[derive(Drop)]
struct Earlier {
    /// The least place that reads an entity.
    readers: Table,
    /// The least place that writes it.
    writers: Table,
    /// The least place of those that write it and are committed.
    committed: Table,
}

/// The places of a batch as far as it was looked at.
#[derive(Drop)]
struct Lists {
    /// Those that were put to the front, each before the one before it here.
    fronts: Places,
    /// The first one of the batch, and those that were put to the back.
    backs: Places,
    /// Those that wait.
    carried: Places,
}

fn choose_all(alloc: Global, works: &[Work]) -> Result<Choice, AllocError>
    requires { length works.now < 2 ^ 32 }
    ensures committed { IfOk result (λ c. c.committed ≡ (reordered (accesses_of works.now)).committed) }
    ensures carried { IfOk result (λ c. c.carried ≡ (reordered (accesses_of works.now)).carried) }
{
    let lists = look_at_all(alloc, works)?;
    joined(alloc, lists)
}

/// The places of a batch, each where its request goes.
#[tactic(auto, unfolding(crate::specs::Reordering::reordered))]
fn look_at_all(alloc: Global, works: &[Work]) -> Result<Lists, AllocError>
    requires { length works.now < 2 ^ 32 }
    ensures order { IfOk result (λ lists. order_of lists ≡ (reordered (accesses_of works.now)).committed) }
    ensures carried { IfOk result (λ lists. lists.carried ≡ (reordered (accesses_of works.now)).carried) }
{
    let mut earlier = nothing_before(alloc);
    let mut lists = no_places(alloc);
    for (i, work) in works.iter().enumerate() {
        look_at(&mut earlier, &mut lists, alloc, i as u32, work)?;
    }
    drop(earlier);
    Ok(lists)
}

fn nothing_before(alloc: Global) -> Earlier
    ensures readers { result.readers ≡ finite.empty }
    ensures writers { result.writers ≡ finite.empty }
    ensures committed { result.committed ≡ finite.empty }
{
    Earlier {
        readers: Table::new(alloc),
        writers: Table::new(alloc),
        committed: Table::new(alloc),
    }
}

fn no_places(alloc: Global) -> Lists
    ensures order { order_of result ≡ [] }
    ensures carried { result.carried ≡ [] }
{
    Lists {
        fronts: Sequence::new(alloc),
        backs: Sequence::new(alloc),
        carried: Sequence::new(alloc),
    }
}

/// Looks at the request at a place: puts the place where it goes, and notes what it touched.
fn look_at(
    earlier: &mut Earlier,
    lists: &mut Lists,
    alloc: Global,
    place: u32,
    work: &Work,
) -> Result<(), AllocError>
    ensures placed { OnOk result (IsPlaced lists.old lists.new place (waits earlier.old work.now) (goes_first earlier.old work.now)) }
    ensures noted { OnOk result (IsNoted earlier.old earlier.new work.now (waits earlier.old work.now)) }
{
    if must_wait(earlier, work) {
        lists.carried.push(alloc, place)?;
        note(earlier, alloc, place, work)?;
        return Ok(());
    }
    let first = any_taken(&earlier.committed, work.reads.as_slice());
    put(lists, alloc, place, first)?;
    reserve_all(&mut earlier.committed, alloc, place, work.writes.as_slice())?;
    note(earlier, alloc, place, work)
}

/// Whether a request writes what an earlier one writes, or both reads what an earlier one writes and
/// writes what an earlier one reads.
fn must_wait(earlier: &Earlier, work: &Work) -> bool
    ensures { result ≡ waits earlier.now work.now }
{
    let writes = work.writes.as_slice();
    any_taken(&earlier.writers, writes)
        || (any_taken(&earlier.writers, work.reads.as_slice())
            && any_taken(&earlier.readers, writes))
}

/// Whether one of these entities is reserved.
fn any_taken(table: &Table, refs: &[Ref]) -> bool
    ensures { result ≡ list_any (is_taken table.now) refs.now }
{
    refs.iter().any(|at| table.least(at).is_some())
}

/// Puts a committed place to the front, or else to the back.
fn put(lists: &mut Lists, alloc: Global, place: u32, first: bool) -> Result<(), AllocError>
    ensures order { OnOk result (order_of lists.new ≡ (if first then (place ∷ order_of lists.old) else (order_of lists.old ++ place ∷ []))) }
    ensures carried { OnOk result (lists.new.carried ≡ lists.old.carried) }
{
    if first {
        lists.fronts.push(alloc, place)
    } else {
        lists.backs.push(alloc, place)
    }
}

/// Notes what a request reads and writes.
fn note(earlier: &mut Earlier, alloc: Global, place: u32, work: &Work) -> Result<(), AllocError>
    ensures readers { OnOk result (Grows earlier.old.readers earlier.new.readers work.now.reads) }
    ensures writers { OnOk result (Grows earlier.old.writers earlier.new.writers work.now.writes) }
    ensures committed { OnOk result (earlier.new.committed ≡ earlier.old.committed) }
{
    reserve_all(&mut earlier.readers, alloc, place, work.reads.as_slice())?;
    reserve_all(&mut earlier.writers, alloc, place, work.writes.as_slice())
}

fn reserve_all(table: &mut Table, alloc: Global, place: u32, refs: &[Ref]) -> Result<(), AllocError>
    ensures { OnOk result (Grows table.old table.new refs.now) }
{
    for at in refs {
        table.reserve(alloc, place, at)?;
    }
    Ok(())
}

/// The choice that the lists make: the fronts turned round, and the backs behind them.
fn joined(alloc: Global, lists: Lists) -> Result<Choice, AllocError>
    ensures committed { IfOk result (λ c. c.committed ≡ order_of lists) }
    ensures carried { IfOk result (λ c. c.carried ≡ lists.carried) }
{
    let Lists {
        fronts,
        backs,
        carried,
    } = lists;
    let mut committed = turned(alloc, fronts.as_slice())?;
    committed.append(alloc, backs)?;
    Ok(Choice { committed, carried })
}

fn turned(alloc: Global, places: &[u32]) -> Result<Places, AllocError>
    ensures { IfOk result (λ made. made ≡ reverse places.now) }
{
    Ok(Sequence::from_vec(places.iter().rev().copied().collect(alloc)?))
}
