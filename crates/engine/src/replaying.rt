//! A batch of a log run again on an engine.

ghost use Rattle.std.specs.Prelude.{◌≡◌, ◌↔◌, ◌≤◌, true, IsTrue, length, IfOk, IfErr, OnOk, OnErr};
ghost use Rattle.std.specs.List.{AllByRecursion};
ghost use Rattle.program_meaning.specs.Fits.{StateFits};
ghost use Rattle.request_history.specs.SoundHistory.{RequestFits};
ghost use Rattle.keyed_state.specs.Works.{are_places};
ghost use Rattle.block_step.specs.CompiledViews.{IsWhole};
ghost use Rattle.engine.specs.Cores.{CoreFits};
ghost use Rattle.engine.specs.Growth.{GrowsSerially};
ghost use Rattle.engine.specs.EngineViews.{core_of, source_of, tables_of, compiled_of, limit_of, fresh_of, RunsProgram};
ghost use Rattle.engine.specs.Replays.{replayed, ListFits, BatchFits};
ghost use Rattle.engine.specs.Causes.{IsCause};
ghost use Rattle.engine.specs.RanReplays.{HasRunAgain};

use crate::copying::{copies_of, entries_at, others_of, requests_at};
use crate::engine::Engine;
use crate::moves::Moves;
use crate::restore_error::RestoreError;
use crate::restoring::tables_in;
use kept_parts::{are_places, ids_differ, requests_fit};
use ordered_runs::{Ordered, run_in_order};
use sf_value::{BatchRecord, Places, Requests};
use std::alloc::{AllocError, Global};

/// At most so many requests wait at a time.
const MOST_WAITING: usize = 256;

/// A batch of a log that has run, with all that it moves.
#[derive(Drop)]
pub(crate) struct Replay {
    moves: Moves,
    /// The places of the works, in the order in which they are applied.
    places: Places,
}

impl Engine {
    /// Runs a batch of a log again: its news join the requests that wait, and the places that it lists are
    /// committed, one after another. It is wrong exactly where it doesn't fit the core. All is as before
    /// then, and without memory too.
    pub fn replay(&mut self, alloc: Global, batch: BatchRecord) -> Result<(), RestoreError>
        requires whole { IsWhole (compiled_of self.old) }
        requires fits { CoreFits (tables_of self.old) (core_of self.old) }
        ensures core { OnOk result (core_of self.new ≡ replayed (source_of self.old) (core_of self.old) batch) }
        ensures batch_fits { OnOk result (BatchFits (tables_of self.old) (core_of self.old) batch) }
        ensures wrong { IfErr result (IsCause (BatchFits (tables_of self.old) (core_of self.old) batch)) }
        ensures fresh { OnOk result (fresh_of self.new ≡ 0) }
        ensures err { OnErr result ((core_of self.new ≡ core_of self.old) × (fresh_of self.new ≡ fresh_of self.old)) }
        ensures runs { RunsProgram self.new (compiled_of self.old) (limit_of self.old) }
        ensures core_fits { CoreFits (tables_of self.old) (core_of self.new) }
        ensures grows { GrowsSerially (source_of self.old) (core_of self.old) (core_of self.new) }
    {
        if !self.can_list(&batch) || !self.can_take(&batch) {
            return Err(RestoreError::Wrong);
        }
        let BatchRecord { news, committed } = batch;
        let mut waiting = copies_of(alloc, self.pending.as_slice())?;
        waiting.append(alloc, news)?;
        if !ids_differ(&self.history, waiting.as_slice()) {
            return Err(RestoreError::Wrong);
        }
        let replay = self.run_again(alloc, &waiting, &committed)?;
        self.make_room(alloc, &replay.moves, &replay.places)?;
        let Replay { moves, places } = replay;
        self.join(moves, &places);
        drop(places);
        Ok(())
    }

    /// Whether a batch lists requests that wait then, which aren't too many, and for which the history has
    /// places.
    fn can_list(&self, batch: &BatchRecord) -> bool
        ensures { IsTrue result ↔ ListFits (core_of self.now) batch.now }
    {
        let waiting = self.pending.len();
        let placed = self.history.len();
        batch.news.len() <= MOST_WAITING - waiting
            && !batch.committed.is_empty()
            && batch.committed.len() <= u32::MAX as usize - placed
            && are_places(waiting + batch.news.len(), batch.committed.as_slice())
    }

    /// Whether the news of a batch fit the program.
    fn can_take(&self, batch: &BatchRecord) -> bool
        requires { IsWhole (compiled_of self.now) }
        ensures { IsTrue result ↔ AllByRecursion (RequestFits (tables_of self.now)) batch.now.news }
    {
        requests_fit(tables_in(&self.compiled), batch.news.as_slice())
    }

    /// Runs the requests at these places of those that wait, one after another.
    fn run_again(
        &self,
        alloc: Global,
        waiting: &Requests,
        committed: &Places,
    ) -> Result<Replay, AllocError>
        requires whole { IsWhole (compiled_of self.now) }
        requires state { StateFits (tables_of self.now) (core_of self.now).state }
        requires fit { AllByRecursion (RequestFits (tables_of self.now)) waiting.now }
        requires few { length waiting.now ≤ 256 }
        requires once { are_places (length waiting.now) committed.now ≡ true }
        ensures { IfOk result (HasRunAgain (source_of self.now) (core_of self.now) waiting.now committed.now) }
    {
        let listed = requests_at(alloc, waiting, committed.as_slice())?;
        let carried = others_of(alloc, waiting, committed.as_slice())?;
        let Ordered {
            outcomes,
            works,
            places,
        } = run_in_order(alloc, &self.compiled, &self.state, &listed)?;
        let entries = entries_at(alloc, &listed, &outcomes, places.as_slice())?;
        drop(listed);
        drop(outcomes);
        Ok(Replay {
            moves: Moves {
                entries,
                carried,
                works,
            },
            places,
        })
    }
}
