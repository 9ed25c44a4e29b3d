//! Events, and the frames of the methods that wait.

use program_meaning::Vars;
use sf_list::{Sequence, TryClone};
use sf_value::{Outcome, Ref, Values};
use std::alloc::{AllocError, Global};

/// A method that waits for the result of a call or of a creation.
#[derive(Drop)]
pub struct Frame {
    /// The entity whose method waits.
    pub at: Ref,
    pub method: u32,
    /// The block at whose end it waits.
    pub block: u32,
    /// The variables that are read once it goes on.
    pub vars: Vars,
}

/// The methods that wait. The one that called last stands last.
pub type Frames = Sequence<Frame>;

/// What an operator is to do next for a transaction.
#[derive(Drop)]
pub struct Event {
    /// The number of the transaction in its batch.
    pub tx: u32,
    /// The steps that are left.
    pub steps: u32,
    pub frames: Frames,
    pub kind: EventKind,
}

/// What an event asks for.
pub enum EventKind {
    /// A call of a method of an entity.
    Enter { to: Ref, method: u32, args: Values },
    /// The creation of an entity.
    Make { to: Ref, args: Values },
    /// The last frame goes on with this result.
    Resume(Outcome),
    /// The transaction has come to this.
    Done(Outcome),
}

/// Gives each owned part to a call of `drop`, so that a function that lets an event go has one step for it.
impl Drop for EventKind {
    fn drop(self) {
        match self {
            EventKind::Enter {
                to,
                method: _,
                args,
            } => {
                drop(to);
                drop(args);
            }
            EventKind::Make { to, args } => {
                drop(to);
                drop(args);
            }
            EventKind::Resume(outcome) => drop(outcome),
            EventKind::Done(outcome) => drop(outcome),
        }
    }
}
