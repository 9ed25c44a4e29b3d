//! Which calls of a device in memory are to fail.

ghost use Rattle.std.specs.Prelude.{◌≡◌, IfOk};
ghost use Rattle.sf_outside.specs.Calls.{is_due};
ghost use Rattle.sf_outside.specs.Causes.{next_count};

use std::alloc::{AllocError, Global};
use std::marker::Model;

/// The numbers, from 1, of the calls that are to fail, and how many calls were made.
#[derive(Drop)]
pub struct Calls {
    fail_at: Vec<u64>,
    made: u64,
}

impl Model for Calls {
    ghost use Rattle.sf_outside.specs.Calls.{CallsState};

    ghost Value = { CallsState };

    ghost view = { λ calls. record { fail_at = calls.fail_at.items; made = calls.made } };
}

impl Calls {
    pub fn new(alloc: Global, fail_at: &[u64]) -> Result<Calls, AllocError>
        ensures { IfOk result (λ made. made ≡ record { fail_at = fail_at.now; made = 0 }) }
    {
        Ok(Calls {
            fail_at: Vec::from_slice(alloc, fail_at)?,
            made: 0,
        })
    }

    /// How many calls were made, as far as the count reaches.
    pub fn made(&self) -> u64
        ensures { result ≡ self.now.made }
    {
        self.made
    }

    /// Whether the next call is to fail.
    pub fn is_next_due(&self) -> bool
        ensures { result ≡ is_due self.now.fail_at (next_count self.now.made) }
    {
        let next = self.made.saturating_add(1);
        self.fail_at.as_slice().contains(&next)
    }

    /// Counts a call.
    pub fn count(&mut self)
        ensures { self.new ≡ record self.old { made = next_count self.old.made } }
    {
        self.made = self.made.saturating_add(1);
    }

    /// Counts a call, and says whether it is to fail.
    pub fn next_fails(&mut self) -> bool
        ensures answer { result ≡ is_due self.old.fail_at self.new.made }
        ensures counted { self.new ≡ record self.old { made = next_count self.old.made } }
    {
        self.made = self.made.saturating_add(1);
        self.fail_at.as_slice().contains(&self.made)
    }
}
