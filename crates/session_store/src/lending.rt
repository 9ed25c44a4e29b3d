//! What a checkpoint writes of an engine, lent where it stands: the records of its state, and the entries of its history behind those that
//! a store has. Nothing of it is copied.

ghost use Rattle.std.specs.Prelude.{◌≡◌, true, [], OnOk, OnErr};
ghost use Rattle.std.specs.List.{cons_option, flat_map, AllByRecursion};
ghost use Rattle.std.specs.Option.{option_map};
ghost use Rattle.byte_sizes.specs.Spelt.{IsSpeltEntry, IsRealEntry};
ghost use Rattle.keyed_state.specs.Works.{with_records, entities_differ};
ghost use Rattle.program_meaning.specs.Serial.{no_state};
ghost use Rattle.request_history.specs.HistoryView.{kept_at};
ghost use Rattle.sf_bytes.specs.ByteForms.{entry_bytes};
ghost use Rattle.store_meaning.specs.Vocabulary.{core_of};

use keyed_state::Lent;
use request_history::Found;
use sf_bytes::{LentRecords, Out, Spelled, put_entry};
use sf_value::{Record, Ref};
use store_meaning::Engine;

/// The records of an engine's state.
#[derive(Drop)]
pub(crate) struct StateRecords<'a> {
    lent: Lent<'a>,
}

impl StateRecords<'_> {
    /// Those of this engine, each entity once.
    pub(crate) fn of(engine: &Engine) -> StateRecords<'_>
        ensures contents { with_records no_state result.lent ≡ (core_of engine.now).state }
        ensures once { entities_differ result.lent ≡ true }
    {
        StateRecords {
            lent: engine.state().lend(),
        }
    }
}

impl LentRecords for StateRecords<'_> {
    ghost listed = { λ records. records.lent };

    fn len(&self) -> usize {
        self.lent.len()
    }

    fn at(&self, place: usize) -> (&Ref, &Record) {
        self.lent.at(place)
    }
}

/// The entries of an engine's history behind the first so many.
#[derive(Drop)]
pub(crate) struct EntriesBehind<'a> {
    pub(crate) engine: &'a Engine,
    pub(crate) kept: u32,
}

impl Spelled for EntriesBehind<'_> {
    ghost use Rattle.std.specs.Prelude.{drop};
    ghost use Rattle.std.specs.List.{flat_map, AllByRecursion};
    ghost use Rattle.byte_sizes.specs.Spelt.{IsSpeltEntry, IsRealEntry};
    ghost use Rattle.sf_bytes.specs.ByteForms.{entry_bytes};
    ghost use Rattle.store_meaning.specs.Vocabulary.{core_of};

    ghost bytes_of = { λ behind. flat_map entry_bytes (drop behind.kept (core_of behind.engine.now).history) };

    ghost is_spelt = { λ behind. AllByRecursion IsSpeltEntry (drop behind.kept (core_of behind.engine.now).history) };

    ghost is_real = { λ behind. AllByRecursion IsRealEntry (drop behind.kept (core_of behind.engine.now).history) };

    fn put<D, O: Out<D>>(&self, out: &mut O, on: &mut D) -> Result<(), O::Stop> {
        for place in self.kept..self.engine.entries() {
            put_found(out, on, self.engine.entry(place + 1))?;
        }
        Ok(())
    }
}

/// An entry of a history, where there is one.
fn put_found<D, O: Out<D>>(out: &mut O, on: &mut D, found: Option<Found<'_>>) -> Result<(), O::Stop>
    requires { AllByRecursion IsSpeltEntry (cons_option (option_map (λ f. (kept_at f).entry) found) []) }
    ensures all { OnOk result (O.puts out.old on.old out.new on.new (flat_map entry_bytes (cons_option (option_map (λ f. (kept_at f).entry) found.entry) []))) }
    ensures part { OnErr result (O.stops out.old on.old out.new on.new) }
    ensures real { OnOk result (AllByRecursion IsRealEntry (cons_option (option_map (λ f. (kept_at f).entry) found.entry) [])) }
{
    match found {
        Some(found) => put_entry(
            out,
            on,
            found.id,
            &found.committed.act,
            &found.committed.outcome,
        ),
        None => Ok(()),
    }
}
