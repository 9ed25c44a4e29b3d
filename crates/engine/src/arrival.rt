//! What a request meets when it arrives.

/// What a request meets when it arrives.
#[derive(Clone, Copy, PartialEq, Eq, Debug)]
pub enum Arrival {
    /// Its id is new, and it waits from now on.
    New,
    /// It was committed, at this place of the history, counted from 1.
    Again(u32),
    /// It waits already.
    Waiting,
    /// A request with its id was committed or waits, and asks for something else.
    Reused,
}

impl Arrival {
    ghost use Rattle.std.specs.Prelude.{◌≡◌, ◌↔◌, IsTrue};
    ghost use Rattle.engine.specs.declared.arrival.Arrival.TheVariants as arrival;

    pub fn is_new(self) -> bool
        ensures { IsTrue result ↔ (self ≡ arrival.New) }
    {
        matches!(self, Arrival::New)
    }
}
