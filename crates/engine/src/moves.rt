//! What a batch moves that has run: room is made for it, and then it moves without memory.

ghost use Rattle.std.specs.Prelude.{◌≡◌, true, length, OnOk};
ghost use Rattle.keyed_state.specs.Works.{are_places};
ghost use Rattle.engine.specs.EngineViews.{core_of, compiled_of, limit_of, fresh_of, RunsProgram};
ghost use Rattle.engine.specs.Moves.{moved, CanMove, HasRoomFor};

use crate::engine::Engine;
use keyed_state::Works;
use sf_value::{Entries, Places, Requests};
use std::alloc::{AllocError, Global};

/// What a batch moves that has run. The places of the works that make their writes stand beside it.
#[derive(Drop)]
pub(crate) struct Moves {
    /// The requests that are committed, with what they came to.
    pub(crate) entries: Entries,
    /// The requests that wait on.
    pub(crate) carried: Requests,
    pub(crate) works: Works,
}

impl Engine {
    /// Makes room for what is to move.
    pub(crate) fn make_room(
        &mut self,
        alloc: Global,
        moves: &Moves,
        places: &Places,
    ) -> Result<(), AllocError>
        requires { are_places (length moves.now.works) places.now ≡ true }
        ensures core { core_of self.new ≡ core_of self.old }
        ensures fresh { fresh_of self.new ≡ fresh_of self.old }
        ensures runs { RunsProgram self.new (compiled_of self.old) (limit_of self.old) }
        ensures room { OnOk result (HasRoomFor self.new moves.now places.now) }
    {
        self.history.reserve(moves.entries.len())?;
        self.state.prepare(alloc, &moves.works, places)
    }

    /// The entries join the history, the works at these places make their writes, and the others wait on.
    /// It takes no memory and can't fail.
    pub(crate) fn join(&mut self, moves: Moves, places: &Places)
        requires can { CanMove (core_of self.old) moves places.now }
        requires room { HasRoomFor self.old moves places.now }
        ensures core { core_of self.new ≡ moved (core_of self.old) moves places.now }
        ensures fresh { fresh_of self.new ≡ 0 }
        ensures runs { RunsProgram self.new (compiled_of self.old) (limit_of self.old) }
    {
        let Moves {
            entries,
            carried,
            works,
        } = moves;
        self.history.commit_all(entries);
        self.state.apply(works, places);
        self.pending = carried;
        self.fresh = 0;
    }
}
