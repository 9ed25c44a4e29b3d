//! Sets of names, one for each block.

ghost use Rattle.std.specs.Prelude.{◌≡◌, [], OnOk};
ghost use Rattle.live_vars.specs.Saved as spec;
ghost use Rattle.live_vars.specs.Saved.{sets_of};

use indexmap::IndexSet;
use py_tree::Name;
use sf_list::Sequence;
use std::alloc::{AllocError, Global};

/// A set of names, by their numbers.
#[derive(Drop)]
pub(crate) struct NameSet {
    pub(crate) numbers: IndexSet<u32>,
}

/// For each block a set of names.
pub(crate) type NameSets = Sequence<NameSet>;

impl NameSet {
    pub(crate) fn new(alloc: Global) -> NameSet
        ensures { spec.names_in result ≡ [] }
    {
        NameSet {
            numbers: IndexSet::new(alloc),
        }
    }

    pub(crate) fn has(&self, name: Name) -> bool
        ensures { result ≡ spec.has (spec.names_in self.now) name.0 }
    {
        self.numbers.contains(&name.0)
    }

    pub(crate) fn add(&mut self, name: Name) -> Result<(), AllocError>
        ensures { OnOk result (spec.names_in self.new ≡ spec.with_name (spec.names_in self.old) name.0) }
    {
        self.numbers.insert(name.0)?;
        Ok(())
    }
}

/// Whether the block of this number has a name in its set.
#[tactic(auto, using(crate::proofs::SetRules::set_rules))]
pub(crate) fn has_at(sets: &NameSets, number: u32, name: Name) -> bool
    ensures { result ≡ spec.has_at (sets_of sets.now) number name.0 }
{
    match sets.get(number as usize) {
        Some(set) => set.has(name),
        None => false,
    }
}
