//! The devices of the system, and what a call comes to on them.

ghost use Rattle.std.specs.Prelude.{map, string_bytes};
ghost use Rattle.std.specs.Process.{exit_status};
ghost use Rattle.sf_outside.specs.DiskModel.{untold};
ghost use Rattle.command_words.specs.CommandReading.{asked};
ghost use Rattle.stateflow_cli.specs.Promise.{Promise};

use operator_graph::NoWatch;
use stateflow_cli::{Call, Generator, NamedFiles, Reading, Shows, Writing, stateflow};
use std::alloc::Global;
use std::process::ExitCode;
use std::rt::{Stderr, Stdin, Stdout};
use store_folder::Folder;

/// The files and folders of a system, the standard streams, a generator of numbers, and nobody who watches.
#[derive(Drop)]
pub(crate) struct SystemDevices {
    pub(crate) files: NamedFiles<HostRuntime>,
    pub(crate) input: Reading<Stdin>,
    pub(crate) out: Writing<Stdout>,
    pub(crate) err: Writing<Stderr>,
    pub(crate) disk: Folder<HostRuntime>,
    pub(crate) chooser: Generator,
    pub(crate) watch: NoWatch,
}

/// What a call's devices show at a moment.
pub(crate) trait Shown {
    ghost use Rattle.stateflow_cli.specs.Devices.{Devices};

    ghost shown: { Self → Devices };
}

impl Shown for SystemDevices {
    ghost shown = { λ d.
        ⟦<Call as Shows<NamedFiles<HostRuntime>, Reading<Stdin>, Writing<Stdout>, Writing<Stderr>, Folder<HostRuntime>, Generator, NoWatch>>⟧.shown
        d.files d.input d.out d.err d.disk d.chooser d.watch };
}

impl SystemDevices {
    /// Does what the words ask for, and answers the status that the process is to end with.
    pub(crate) fn answer(&mut self, alloc: Global, words: &[String]) -> ExitCode
        ensures { Promise (asked (map string_bytes words.now))
            (⟦<SystemDevices as Shown>⟧.shown self.old) (⟦<SystemDevices as Shown>⟧.shown self.new) untold untold (exit_status result) }
    {
        let status = stateflow(
            alloc,
            words,
            &mut self.files,
            &mut self.input,
            &mut self.out,
            &mut self.err,
            &mut self.disk,
            &mut self.chooser,
            &mut self.watch,
        );
        ExitCode::from(status)
    }
}
