//! Whether values, records, requests and what they came to fit the classes of a program. What was
//! kept somewhere may have changed since, so it is tested before anything takes it.
#![tactic(auto)]

mod outcomes;
mod records;
mod requests;
mod tables;
mod values;

pub use outcomes::entry_fits;
pub use records::{held_fits, record_fits};
pub use requests::request_fits;
pub use values::value_fits;
