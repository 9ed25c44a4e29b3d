//! How a batch is planned: it runs, and all that its commit moves is made with memory, so that the commit
//! needs none.

ghost use Rattle.std.specs.Prelude.{◌≡◌, ◌+◌, ◌≤◌, ◌<◌, ◌^◌, length, IfOk, IfErr};
ghost use Rattle.reservations.specs.CommitRules.{Chosen};
ghost use Rattle.block_step.specs.CompiledViews.{IsWhole};
ghost use Rattle.ordered_runs.specs.Vocabulary.{IsParts, Outside, batch_of};
ghost use Rattle.engine.specs.Cores.{PendingFits, CoreFits};
ghost use Rattle.engine.specs.EngineViews.{core_of, source_of, tables_of, compiled_of, limit_of, fresh_of, RunsProgram};
ghost use Rattle.engine.specs.Plans.{IsSerialBatch, IsMade, IsTold, IsPlanOf, IsFault};
ghost use Rattle.engine.specs.RanBatches.{accesses_on, IsRun, TellsPlan};

use crate::copying::{copies_of, entries_at, replies_to, requests_at};
use crate::engine::Engine;
use crate::moves::Moves;
use crate::planned::{PlanFault, Planned};
use ordered_runs::{BatchResult, Watch, run_batch};
use reservations::CommitRule;
use sf_outside::Chooser;
use sf_value::BatchRecord;
use std::alloc::{AllocError, Global};

impl Engine {
    /// Runs a batch of all requests that wait, and plans its commit. The core stays; without memory it is
    /// as before too.
    pub fn plan<R: CommitRule, C: Chooser, W: Watch>(
        &mut self,
        alloc: Global,
        parts: u32,
        rule: &R,
        chooser: &mut C,
        watch: &mut W,
    ) -> Result<Planned, PlanFault>
        requires whole { IsWhole (compiled_of self.old) }
        requires parts { IsParts parts }
        requires fits { CoreFits (tables_of self.old) (core_of self.old) }
        ensures core { core_of self.new ≡ core_of self.old }
        ensures fresh { fresh_of self.new ≡ fresh_of self.old }
        ensures runs { RunsProgram self.new (compiled_of self.old) (limit_of self.old) }
        ensures plan { IfOk result (IsPlanOf self.new) }
        ensures chosen { IfOk result (λ p. p.batch.committed ≡ (R.choice rule.now (accesses_on (source_of self.old) (core_of self.old))).committed) }
        ensures some { 1 ≤ length (core_of self.old).pending → IfOk result (λ p. 1 ≤ length p.batch.committed) }
        ensures fault { IfErr result (IsFault self.old) }
        ensures told { TellsPlan (batch_of (compiled_of self.old) (core_of self.old).state (core_of self.old).pending) parts result
            (record { choices = C.choices chooser.old; told = W.told watch.old }) (record { choices = C.choices chooser.new; told = W.told watch.new }) }
    {
        if self.history.len() + self.pending.len() > self.limit as usize {
            return Err(self.full());
        }
        let ran = run_batch(
            alloc,
            &self.compiled,
            &self.state,
            &self.pending,
            parts,
            rule,
            chooser,
            watch,
        )?;
        let planned = self.planned(alloc, ran)?;
        self.make_room(alloc, &planned.moves, &planned.batch.committed)?;
        Ok(planned)
    }

    /// The fault of a history without a place for as many entries as requests wait.
    fn full(&self) -> PlanFault
        requires { limit_of self.now < length (core_of self.now).history + length (core_of self.now).pending }
        ensures { IsFault self.now result }
    {
        PlanFault::HistoryFull {
            history: self.history.len() as u32,
            pending: self.pending.len() as u32,
        }
    }

    /// Makes what the commit moves.
    fn planned(&self, alloc: Global, ran: BatchResult) -> Result<Planned, AllocError>
        requires ran { IsRun (source_of self.now) (core_of self.now) ran }
        requires fits { PendingFits (tables_of self.now) (core_of self.now) }
        requires places { length (core_of self.now).history + length (core_of self.now).pending < 2 ^ 32 }
        ensures serial { IfOk result (IsSerialBatch (source_of self.now) (core_of self.now)) }
        ensures made { IfOk result (IsMade (source_of self.now) (core_of self.now)) }
        ensures told { IfOk result (IsTold (core_of self.now) (fresh_of self.now)) }
        ensures committed { IfOk result (λ p. p.batch.committed ≡ ran.committed) }
        ensures events { IfOk result (λ p. p.events ≡ ran.events) }
    {
        let BatchResult {
            committed,
            carried: places,
            outcomes,
            works,
            events,
        } = ran;
        let entries = entries_at(alloc, &self.pending, &outcomes, committed.as_slice())?;
        let replies = replies_to(alloc, self.history.len() as u32, entries.as_slice())?;
        let first = self.pending.len() - self.fresh as usize;
        let news = copies_of(alloc, &self.pending.as_slice()[first..])?;
        let carried = requests_at(alloc, &self.pending, places.as_slice())?;
        drop(outcomes);
        drop(places);
        Ok(Planned {
            batch: BatchRecord { news, committed },
            replies,
            events,
            moves: Moves {
                entries,
                carried,
                works,
            },
        })
    }
}
