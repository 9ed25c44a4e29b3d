//! Sums of numbers of 128 bits, which no count of them makes too great, and their texts.
#![tactic(auto)]

mod numeral;
mod sum;

pub use numeral::Numeral;
pub use sum::{Sum, Wide};
