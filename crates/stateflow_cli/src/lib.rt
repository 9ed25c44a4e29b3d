//! The top call of StateFlow: from words, files, an input and two outputs to a status.
#![tactic(auto)]

mod auditing;
mod checking;
mod compiling;
mod ending;
mod exporting;
mod fault;
mod generating;
mod generator;
mod loading;
mod printing;
mod real_devices;
mod running;
mod serving;
mod showing;
mod telling;
mod top_call;
mod words;

pub use generator::Generator;
pub use real_devices::{NamedFiles, Reading, Writing};
pub use showing::{Call, Shows};
pub use top_call::stateflow;
