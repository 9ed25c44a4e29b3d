//! The program: the top call on the standard streams, the files and the folders of the system.
#![tactic(auto)]

mod system_devices;
mod words;

use crate::system_devices::SystemDevices;
use crate::words::words_of;
use operator_graph::NoWatch;
use stateflow_cli::{Generator, NamedFiles, Reading, Writing};
use std::process::ExitCode;
use store_folder::Folder;

/// The status where memory runs out before the words are asked for.
const NO_MEMORY: u8 = 8;

fn main(rt: HostRuntime) -> ExitCode {
    let Ok(words) = words_of(rt.alloc(), rt) else {
        return ExitCode::from(NO_MEMORY);
    };
    let mut devices = SystemDevices {
        files: NamedFiles::new(rt),
        input: Reading::new(rt.stdin()),
        out: Writing::new(rt.stdout()),
        err: Writing::new(rt.stderr()),
        disk: Folder::new(rt.alloc(), rt),
        chooser: Generator::new(),
        watch: NoWatch,
    };
    devices.answer(rt.alloc(), words.as_slice())
}
