//! Lines of JSON: a request that is read and written, a reply that is written.
#![tactic(auto)]

mod arguments;
mod fault;
mod laws;
mod read;
mod requests;
mod sending;
mod write;

pub use fault::{LineError, LineFault};
pub use laws::{
    fitting_things_have_spellings, lines_fit, lines_have_spellings, requests_read_back,
};
pub use read::read_line;
pub use requests::{write_asked, write_request};
pub use write::{write_bad, write_entry, write_reply};
