//! The engine between two batches.

ghost use Rattle.std.specs.Prelude.{◌≡◌, ◌≤◌, ◌<◌, ◌^◌, length};

use crate::arrival::Arrival;
use crate::arriving::arrival_at;
use crate::planned::Planned;
use block_step::Compiled;
use keyed_state::Keyed;
use request_history::{Found, History};
use sf_list::Sequence;
use sf_value::{Request, Requests};
use std::alloc::{AllocError, Global};

/// An engine that runs a compiled program. At most 256 requests wait at a time.
#[derive(Drop)]
pub struct Engine {
    pub(crate) compiled: Compiled,
    /// How many entries the history may have.
    pub(crate) limit: u32,
    pub(crate) history: History,
    pub(crate) state: Keyed,
    pub(crate) pending: Requests,
    /// How many of the last pending requests came since the last batch.
    pub(crate) fresh: u32,
    pub ghost placed: { length history.entries < 2 ^ 32 },
    pub ghost few: { length pending ≤ 256 },
    pub ghost among: { fresh ≤ length pending },
}

impl Engine {
    ghost use Rattle.std.specs.Prelude.{IfOk, OnOk, OnErr};
    ghost use Rattle.std.specs.Option.{option_map};
    ghost use Rattle.request_history.specs.Repeats.{kept_in};
    ghost use Rattle.request_history.specs.HistoryView.{kept_at};
    ghost use Rattle.request_history.specs.SoundHistory.{RequestFits};
    ghost use Rattle.engine.specs.Cores.{empty_core, CoreFits, IsSoundCore};
    ghost use Rattle.engine.specs.Growth.{GrowsSerially};
    ghost use Rattle.engine.specs.Arrivals.{arrival_of, after_arrival, fresh_after};
    ghost use Rattle.engine.specs.Batches.{after_batch};
    ghost use Rattle.engine.specs.Plans.{IsPlanOf};
    ghost use Rattle.engine.specs.EngineViews.{core_of, source_of, tables_of, compiled_of, limit_of, fresh_of, RunsProgram};

    /// An engine to which nothing has come yet. Its history will have at most `limit` entries.
    pub fn new(alloc: Global, compiled: Compiled, limit: u32) -> Result<Engine, AllocError>
        ensures core { IfOk result (λ made. core_of made ≡ empty_core) }
        ensures fresh { IfOk result (λ made. fresh_of made ≡ 0) }
        ensures runs { IfOk result (λ made. RunsProgram made compiled limit) }
        ensures core_fits { IfOk result (λ made. CoreFits (tables_of made) (core_of made)) }
        ensures sound { IfOk result (λ made. IsSoundCore (source_of made) (core_of made)) }
    {
        Ok(Engine {
            compiled,
            limit,
            history: History::new(alloc),
            state: Keyed::new(alloc),
            pending: Sequence::new(alloc),
            fresh: 0,
        })
    }

    /// Takes a request. A new one waits from now on. Without memory all is as before.
    pub fn arrive(&mut self, alloc: Global, request: Request) -> Result<Arrival, AllocError>
        requires few { length (core_of self.old).pending < 256 }
        requires fits { RequestFits (tables_of self.old) request }
        ensures arrival { IfOk result (λ met. met ≡ arrival_of (core_of self.old) request) }
        ensures core { OnOk result (core_of self.new ≡ after_arrival (core_of self.old) request) }
        ensures fresh { OnOk result (fresh_of self.new ≡ fresh_after (core_of self.old) request (fresh_of self.old)) }
        ensures err { OnErr result ((core_of self.new ≡ core_of self.old) × (fresh_of self.new ≡ fresh_of self.old)) }
        ensures runs { RunsProgram self.new (compiled_of self.old) (limit_of self.old) }
        ensures core_fits { CoreFits (tables_of self.old) (core_of self.old) → CoreFits (tables_of self.old) (core_of self.new) }
        ensures grows { GrowsSerially (source_of self.old) (core_of self.old) (core_of self.new) }
    {
        let arrival = arrival_at(&self.history, self.pending.as_slice(), &request);
        if arrival.is_new() {
            self.pending.push(alloc, request)?;
            self.fresh += 1;
        } else {
            drop(request);
        }
        Ok(arrival)
    }

    /// Commits a batch that was planned on this engine, with no change since. It takes no memory and
    /// can't fail.
    pub fn commit(&mut self, planned: Planned)
        requires { IsPlanOf self.old planned }
        ensures core { core_of self.new ≡ after_batch (source_of self.old) (core_of self.old) planned.batch.committed }
        ensures fresh { fresh_of self.new ≡ 0 }
        ensures runs { RunsProgram self.new (compiled_of self.old) (limit_of self.old) }
        ensures core_fits { CoreFits (tables_of self.old) (core_of self.old) → CoreFits (tables_of self.old) (core_of self.new) }
        ensures grows { GrowsSerially (source_of self.old) (core_of self.old) (core_of self.new) }
    {
        let Planned {
            batch,
            replies,
            events: _events,
            moves,
        } = planned;
        self.join(moves, &batch.committed);
        drop(batch);
        drop(replies);
    }

    /// The entry at a place of the history, counted from 1, where there is one.
    pub fn entry(&self, place: u32) -> Option<Found<'_>>
        ensures { option_map kept_at result ≡ kept_in (core_of self.now).history place }
    {
        self.history.entry(place)
    }

    /// The requests that wait, in their order.
    pub fn pending(&self) -> &Requests
        ensures { result.now ≡ (core_of self.now).pending }
    {
        &self.pending
    }

    pub fn state(&self) -> &Keyed
        ensures { result.now.contents ≡ (core_of self.now).state }
    {
        &self.state
    }

    /// The program that the engine was made with.
    pub fn compiled(&self) -> &Compiled
        ensures { result.now ≡ compiled_of self.now }
    {
        &self.compiled
    }
}
