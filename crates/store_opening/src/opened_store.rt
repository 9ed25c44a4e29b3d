//! A store that was opened, and what it is opened for.

ghost use Rattle.std.specs.Prelude.{◌≡◌};
ghost use Rattle.store_opening.specs.OpenedStores.{settings_at};

use engine::Engine;
use session_store::{Store, StoreSettings};
use sf_value::Text;
use store_meaning::Position;

/// What a store is opened for.
#[derive(Drop)]
pub struct OpenSettings {
    /// The text that the program was compiled from.
    pub program: Text,
    /// How many entries the history may have.
    pub limit: u32,
    /// A checkpoint follows after so many batches of the session.
    pub every: u32,
}

/// An engine with the core that a store stands for, and where the store is.
#[derive(Drop)]
pub struct OpenedStore {
    pub engine: Engine,
    pub store: Store,
}

/// The store at this position, as a session begins.
pub(crate) fn store_at(settings: OpenSettings, position: Position) -> Store
    ensures settings { result.settings ≡ settings_at settings position.epoch }
    ensures position { result.position ≡ position }
    ensures since { result.since ≡ 0 }
{
    Store {
        settings: StoreSettings {
            program: settings.program,
            every: settings.every,
            opened: position.epoch,
        },
        position,
        since: 0,
    }
}
