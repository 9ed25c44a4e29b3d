//! Why a call ends, and its status.

ghost use Rattle.std.specs.Prelude.{◌≡◌};
ghost use Rattle.stateflow_cli.specs.StatusLines.{status_of};

use batch_run::SessionFault;
use program_text::ProgramFault;
use store_opening::OpenStop;

/// What was found of a store, or of a run's lines, where that is no result.
#[derive(Clone, Copy, PartialEq, Eq, Debug)]
pub enum Finding {
    /// The folder that is named holds no store.
    NoStore,
    /// This entry of the run has another reply than a serial run gives.
    NotSerial { entry: u32 },
    /// This line of the run is no request or no reply, or is missing.
    BadRun { line: u64 },
    /// The run has more bytes than count, and those that count decide nothing.
    TooLong,
}

#[derive(Clone, Copy, PartialEq, Eq, Debug)]
pub enum Ending {
    /// The words ask for nothing that can be done.
    Misused,
    /// The file's text has this fault.
    Refused(ProgramFault),
    /// The file could not be read.
    FileFault,
    /// Memory ran out before anything was read of the input or printed.
    NoMemory,
    /// The report on the program was printed.
    Printed,
    /// The output failed as the report was printed.
    Unprinted,
    /// The program served the whole input.
    Served,
    /// The program served the input until this stop.
    Stopped(SessionFault),
    /// The store that is named wasn't opened.
    Unopened(OpenStop),
    /// What was looked at gives this in place of a result.
    Found(Finding),
}

impl Ending {
    pub(crate) fn status(self) -> u8
        ensures { result ≡ status_of self }
    {
        match self {
            Ending::Printed | Ending::Served => 0,
            Ending::Refused(_) => 1,
            Ending::Misused => 2,
            Ending::FileFault | Ending::Stopped(SessionFault::ReadFault) => 3,
            Ending::Unprinted | Ending::Stopped(SessionFault::WriteFault) => 4,
            Ending::Stopped(SessionFault::DiskFault) | Ending::Unopened(OpenStop::DiskFault) => 5,
            Ending::Unopened(OpenStop::Bad { .. }) => 6,
            Ending::Unopened(OpenStop::OtherProgram) => 7,
            Ending::NoMemory
            | Ending::Stopped(SessionFault::NoMemory)
            | Ending::Unopened(OpenStop::NoMemory) => 8,
            Ending::Stopped(SessionFault::InputTooLong) | Ending::Found(Finding::TooLong) => 9,
            Ending::Stopped(SessionFault::HistoryFull) => 10,
            Ending::Found(Finding::NoStore) => 11,
            Ending::Found(Finding::NotSerial { .. }) => 13,
            Ending::Found(Finding::BadRun { .. }) => 14,
        }
    }
}
