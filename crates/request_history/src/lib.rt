//! The committed requests with their outcomes, in the order in which they were committed, found by id and
//! by place.
//!
//! A batch makes room first, by `History::reserve`, and then `History::commit_all` takes no memory and
//! can't fail.
#![tactic(auto)]

mod history;

pub use history::{Committed, Found, History};
