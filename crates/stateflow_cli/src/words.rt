//! The words of a call, and what they ask for.

ghost use Rattle.std.specs.Prelude.{◌≡◌, map, string_bytes, IfOk};
ghost use Rattle.command_words.specs.CommandReading.{asked};
ghost use Rattle.command_words.specs.Commands.{asked_by};
ghost use Rattle.command_words.specs.Readings.{Reads};
ghost use Rattle.stateflow_cli.specs.Deeds.{file_of, IsInRange};

use command_words::{Command, WordsError};
use std::alloc::Global;

/// The name of the program in what is told of it: that of its file, or the command's where the program is
/// generated.
pub(crate) fn program_name<'a>(command: &Command<'a>) -> &'a str
    ensures { result.now ≡ file_of (asked_by command.now) }
{
    match command {
        Command::Check { file } => file,
        Command::Compile { file } => file,
        Command::Local { file } => file,
        Command::Run { file, .. } => file,
        Command::Gen(_) => "gen",
        Command::Export { file, .. } => file,
        Command::Audit { file, .. } => file,
    }
}

/// The command that the words ask for. Memory may run out before that is known.
pub(crate) fn command_of<'a>(alloc: Global, words: &'a [String]) -> Result<Command<'a>, WordsError>
    ensures reads { Reads asked_by (asked (map string_bytes words.entry.now)) result }
    ensures in_range { IfOk result (λ command. IsInRange (asked_by command)) }
{
    command_words::command_of(alloc, words)
}
