//! A whole session that serves its input in batches: from its bytes to the replies and the trace, and the
//! batches that run at its end.
#![tactic(auto)]

mod ending;
mod intake;
mod reporting;
mod serving;

pub use serving::{SessionFault, serve};
pub use session_steps::{Settings, Tally, comes_begin, steps_print, write_pieces};
pub use session_store::{NoDisk, Store};
