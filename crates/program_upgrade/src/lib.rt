//! Whether a later program may take over from an earlier one, by the first rule that it breaks, and what of a kept state becomes under
//! it: each added field has the literal that the later program declares it with.
#![tactic(auto)]

mod defaults;
mod laws;
mod mapped;
mod mapping;
mod parts;
mod planning;
mod rule;

pub use laws::what_is_kept_fits;
pub use mapped::{map_records, map_snapshot};
pub use mapping::Mapping;
pub use planning::plan_upgrade;
pub use rule::{UpgradeError, UpgradeFault, UpgradeRule};
