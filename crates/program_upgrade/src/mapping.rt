//! The values that an upgrade adds.

ghost use Rattle.std.specs.Prelude.{◌≡◌};
ghost use Rattle.program_upgrade.specs.Counts.{count_of};

use sf_list::Sequence;
use sf_value::Values;

/// For each class of an earlier program the values of the fields that a later one adds.
#[derive(Drop)]
pub struct Mapping {
    pub(crate) values: Sequence<Values>,
    /// How many values there are.
    pub(crate) count: u32,
    pub ghost counted: { count ≡ count_of values },
}
