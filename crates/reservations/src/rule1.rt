//! The batch rule by reservations: each entity is reserved for the first request that writes it.

ghost use Rattle.std.specs.Prelude.{◌≡◌, ◌<◌, ◌^◌, ◌||◌, ℕ, List, [], ◌∷◌, ◌++◌, if◌then◌else◌, length, IfOk, OnOk};
ghost use Rattle.std.specs.FinMap as finite;
ghost use Rattle.std.specs.FinSet as set;
ghost use Rattle.std.specs.List.{list_any};
ghost use Rattle.sf_value.specs.Keys.{Key};
ghost use Rattle.serial_order.specs.ConflictFree.{Access};
ghost use Rattle.keyed_state.specs.Works.{keys_of};
ghost use Rattle.reservations.specs.Accesses.{accesses_of};
ghost use Rattle.reservations.specs.BatchRule.{IsBatchRule, batch_rule};
ghost use Rattle.reservations.specs.Reservations.{reserved_if, first_writer, is_reserved};
ghost use Rattle.reservations.specs.BatchRuleLaws.{batch_rule_is_lawful};

use crate::table::Table;
use crate::{Choice, CommitRule};
use keyed_state::{Work, Works};
use sf_list::Sequence;
use sf_value::Ref;
use std::alloc::{AllocError, Global};

/// The rule of Aria (Lu et al., VLDB 2020): a request is committed exactly where no earlier one of
/// the batch, committed or not, writes an entity that it reads or writes.
#[derive(Drop)]
pub struct Rule1;

impl CommitRule for Rule1 {
    ghost choice = { λ rule batch. batch_rule batch };

    ghost lawful = { λ rule batch few. batch_rule_is_lawful batch };

    fn choose(&self, alloc: Global, works: &Works) -> Result<Choice, AllocError> {
        choose_all(alloc, works.as_slice())
    }
}

/// The rule commits by pairs: exactly those requests that no earlier one of the batch, committed or
/// not, stands in the way of.
pub fn commits_by_pairs()
    ensures { (batch : List Access) → IsBatchRule batch (batch_rule batch) }
{}

fn choose_all(alloc: Global, works: &[Work]) -> Result<Choice, AllocError>
    requires { length works.now < 2 ^ 32 }
    ensures committed { IfOk result (λ c. c.committed ≡ (batch_rule (accesses_of works.now)).committed) }
    ensures carried { IfOk result (λ c. c.carried ≡ (batch_rule (accesses_of works.now)).carried) }
{
    let table = first_writers(alloc, works)?;
    let choice = choose_by(alloc, &table, works);
    drop(table);
    choice
}

/// Chooses by the table of first writers.
#[tactic(auto, unfolding(crate::specs::BatchRule::batch_rule))]
fn choose_by(alloc: Global, table: &Table, works: &[Work]) -> Result<Choice, AllocError>
    requires few { length works.now < 2 ^ 32 }
    requires writers { (q : Key) → finite.get table.now q ≡ first_writer (accesses_of works.now) q }
    ensures committed { IfOk result (λ c. c.committed ≡ (batch_rule (accesses_of works.now)).committed) }
    ensures carried { IfOk result (λ c. c.carried ≡ (batch_rule (accesses_of works.now)).carried) }
{
    let mut choice = Choice {
        committed: Sequence::new(alloc),
        carried: Sequence::new(alloc),
    };
    for (i, work) in works.iter().enumerate() {
        let place = i as u32;
        add(&mut choice, alloc, place, waits(table, place, work))?;
    }
    Ok(choice)
}

/// The table in which each entity is reserved for the first request that writes it.
fn first_writers(alloc: Global, works: &[Work]) -> Result<Table, AllocError>
    requires { length works.now < 2 ^ 32 }
    ensures { IfOk result (λ table. (q : Key) → finite.get table q ≡ first_writer (accesses_of works.now) q) }
{
    let mut table = Table::new(alloc);
    for (i, work) in works.iter().enumerate() {
        reserve_all(&mut table, alloc, i as u32, work.writes.as_slice())?;
    }
    Ok(table)
}

fn reserve_all(
    table: &mut Table,
    alloc: Global,
    place: u32,
    writes: &[Ref],
) -> Result<(), AllocError>
    ensures { OnOk result ((q : Key) → finite.get table.new q ≡ reserved_if (set.contains (keys_of writes.now) q) (finite.get table.old q) place) }
{
    for at in writes {
        table.reserve(alloc, place, at)?;
    }
    Ok(())
}

/// Whether an earlier request of the batch writes what this work read or wrote.
fn waits(table: &Table, place: u32, work: &Work) -> bool
    ensures { result ≡ (list_any (is_reserved table.now place) work.now.reads || list_any (is_reserved table.now place) work.now.writes) }
{
    any_before(table, place, work.reads.as_slice())
        || any_before(table, place, work.writes.as_slice())
}

/// Whether one of these entities is reserved for an earlier place.
fn any_before(table: &Table, place: u32, refs: &[Ref]) -> bool
    ensures { result ≡ list_any (is_reserved table.now place) refs.now }
{
    for at in refs {
        if let Some(least) = table.least(at) {
            if least < place {
                return true;
            }
        }
    }
    false
}

/// Adds a place to the carried ones where its request waits, and else to the committed ones.
fn add(choice: &mut Choice, alloc: Global, place: u32, waits: bool) -> Result<(), AllocError>
    ensures committed { OnOk result (choice.new.committed ≡ (if waits then choice.old.committed else (choice.old.committed ++ place ∷ []))) }
    ensures carried { OnOk result (choice.new.carried ≡ (if waits then (choice.old.carried ++ place ∷ []) else choice.old.carried)) }
{
    if waits {
        choice.carried.push(alloc, place)
    } else {
        choice.committed.push(alloc, place)
    }
}
