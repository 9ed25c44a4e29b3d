//! What a disk in memory keeps of its mounts.

ghost use Rattle.std.specs.Prelude.{◌≡◌, ◌≤◌, None, [], bytes_eq, string_bytes, IfOk, OnOk, OnErr};
ghost use Rattle.std.specs.List.{position};
ghost use Rattle.sf_outside.specs.Causes.{next_count};
ghost use Rattle.sf_outside.specs.DiskModel.{NotMounted};
ghost use Rattle.sf_outside.specs.MountState.{mounts_of, refusals_of, with_mount, with_refusal};

use std::alloc::{AllocError, Global};
use std::marker::Model;

/// A name, and how many mounts of it were refused.
#[derive(Drop)]
pub struct Refusal {
    name: String,
    count: u64,
}

impl Model for Refusal {
    ghost use Rattle.std.specs.Prelude.{string_bytes};
    ghost use Rattle.sf_outside.specs.MountState.{RefusedName};

    ghost Value = { RefusedName };

    ghost view = { λ refusal. record { name = string_bytes refusal.name; count = refusal.count } };
}

impl Refusal {
    /// The first refusal of a name.
    fn new(alloc: Global, name: &str) -> Result<Refusal, AllocError>
        ensures { IfOk result (λ made. made ≡ record { name = name.now; count = 1 }) }
    {
        Ok(Refusal {
            name: String::from_str(alloc, name)?,
            count: 1,
        })
    }

    fn is_named(&self, name: &str) -> bool
        ensures { result ≡ bytes_eq self.now.name name.now }
    {
        self.name.as_str() == name
    }

    fn again(&mut self)
        ensures counted { self.new ≡ record self.old { count = next_count self.old.count } }
        ensures later { self.old.count ≤ self.new.count }
    {
        self.count = self.count.saturating_add(1);
    }
}

/// The mounts that succeeded and those that were refused.
#[derive(Drop)]
pub struct MountBook {
    count: u64,
    name: Option<String>,
    moment: u64,
    refusals: Vec<Refusal>,
}

impl Model for MountBook {
    ghost use Rattle.std.specs.Prelude.{string_bytes};
    ghost use Rattle.std.specs.Option.{option_map};
    ghost use Rattle.sf_outside.specs.MountState.{MountState};

    ghost Value = { MountState };

    ghost view = { λ book. record { count = book.count; name = option_map string_bytes book.name; moment = book.moment; refusals = book.refusals.items } };
}

impl MountBook {
    /// No mounts.
    pub fn new(alloc: Global) -> MountBook
        ensures { result ≡ record { count = 0; name = None; moment = 0; refusals = [] } }
    {
        MountBook {
            count: 0,
            name: None,
            moment: 0,
            refusals: Vec::new(alloc),
        }
    }

    /// Keeps a mount that succeeded, and the moment after it.
    pub fn succeed(&mut self, name: String, moment: u64)
        ensures { self.new ≡ with_mount self.old (string_bytes name) moment }
    {
        self.count = self.count.saturating_add(1);
        self.name = Some(name);
        self.moment = moment;
    }

    /// Counts a mount that was refused.
    pub fn refuse(&mut self, alloc: Global, name: &str) -> Result<(), AllocError>
        ensures refused { NotMounted name.now (mounts_of self.old) (mounts_of self.new) }
        ensures ok { OnOk result (refusals_of self.new.refusals name.now ≡ next_count (refusals_of self.old.refusals name.now)) }
        ensures exact { OnOk result (self.new ≡ with_refusal self.old name.now) }
        ensures err { OnErr result (self.new ≡ self.old) }
    {
        if let Some(place) = self.place_of(name) {
            self.refusals[place].again();
            return Ok(());
        }
        self.refusals.push(Refusal::new(alloc, name)?)?;
        Ok(())
    }

    /// Where the first refusal of this name stands.
    fn place_of(&self, name: &str) -> Option<usize>
        ensures { result ≡ position (λ refused. bytes_eq refused.name name.now) self.now.refusals }
    {
        self.refusals
            .iter()
            .position(|refusal| refusal.is_named(name))
    }
}
