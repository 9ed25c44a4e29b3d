//! What several crates of tests share: tables of rows, settings of their lines, and sample programs.
#![tactic(auto)]

mod holding;
mod programs;
mod settings;
mod tables;

pub use holding::{Case, hold_cases, hold_table, hold_text};
pub use programs::{COUNTER, NUM, PING, SHOP};
pub use settings::{Setting, text_in};
pub use tables::{Row, rows};
