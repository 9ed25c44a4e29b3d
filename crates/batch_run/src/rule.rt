//! The rule of a run, which its settings choose.

ghost use Rattle.std.specs.Prelude.{◌≡◌, IfOk};
ghost use Rattle.batch_run.specs.RunViews.{rule_by};
ghost use Rattle.batch_run.specs.RuleLaws.{rule_is_lawful};

use batch_reorder::Rule2;
use keyed_state::Works;
use reservations::{Choice, CommitRule, Rule1};
use std::alloc::{AllocError, Global};

/// What says which requests of a batch are committed, and in which order.
#[derive(Drop)]
pub(crate) struct RunRule {
    /// Whether requests may commit in another order than they came.
    pub(crate) reorder: bool,
}

impl CommitRule for RunRule {
    ghost choice = { λ rule batch. rule_by rule.reorder batch };

    ghost lawful = { λ rule batch few. rule_is_lawful rule.reorder batch };

    fn choose(&self, alloc: Global, works: &Works) -> Result<Choice, AllocError> {
        if self.reorder {
            Rule2::new().choose(alloc, works)
        } else {
            Rule1.choose(alloc, works)
        }
    }
}
