//! The top call.

ghost use Rattle.std.specs.Prelude.{◌≡◌, None, Some, map, string_bytes};
ghost use Rattle.command_words.specs.CommandReading.{asked};
ghost use Rattle.command_words.specs.Commands.{asked_by};
ghost use Rattle.stateflow_cli.specs.Endings.{longest_input};
ghost use Rattle.stateflow_cli.specs.Deeds.{EndsOn, IsInRange, LeavesUnasked, store_in};
ghost use Rattle.stateflow_cli.specs.Devices.{Devices};
ghost use Rattle.stateflow_cli.specs.Promise.{Answers, Promise};

use crate::auditing::audit_file;
use crate::checking::check_file;
use crate::compiling::compile_file;
use crate::ending::Ending;
use crate::exporting::export_file;
use crate::generating::serve_generated;
use crate::running::interpret_file;
use crate::serving::run_file;
use crate::showing::{Call, Shows};
use crate::telling::tell;
use crate::words::{command_of, program_name};
use command_words::{Command, WordsError};
use operator_graph::Watch;
use sf_outside::{Chooser, Disk, Files, Sink, Source};
use std::alloc::Global;

/// Does what is asked.
fn perform<F: Files, S: Source, K: Sink, E: Sink, D: Disk, C: Chooser, W: Watch>(
    alloc: Global,
    command: Command<'_>,
    files: &mut F,
    input: &mut S,
    out: &mut K,
    err: &mut E,
    disk: &mut D,
    chooser: &mut C,
    watch: &mut W,
) -> Ending
    requires in_range { IsInRange (asked_by command) }
    ensures ends { EndsOn longest_input (asked_by command.entry)
        (⟦<Call as Shows<F, S, K, E, D, C, W>>⟧.shown files.old input.old out.old err.old disk.old chooser.old watch.old)
        (⟦<Call as Shows<F, S, K, E, D, C, W>>⟧.shown files.new input.new out.new err.new disk.new chooser.new watch.new)
        (D.facts disk.old) (D.facts disk.new) result }
    ensures aside { LeavesUnasked (Some (asked_by command.entry))
        (⟦<Call as Shows<F, S, K, E, D, C, W>>⟧.shown files.old input.old out.old err.old disk.old chooser.old watch.old)
        (⟦<Call as Shows<F, S, K, E, D, C, W>>⟧.shown files.new input.new out.new err.new disk.new chooser.new watch.new) }
    ensures untouched { store_in (Some (asked_by command.entry)) ≡ None → disk.new ≡ disk.old }
{
    match command {
        Command::Check { file } => check_file(alloc, file, files, out),
        Command::Compile { file } => compile_file(alloc, file, files, out, watch),
        Command::Local { file } => interpret_file(alloc, file, files, input, out),
        Command::Run { file, settings } => run_file(
            alloc, file, settings, files, input, out, err, disk, chooser, watch,
        ),
        Command::Gen(words) => serve_generated(alloc, words, out, chooser, watch),
        Command::Export { file, store } => export_file(alloc, file, store, files, out, disk),
        Command::Audit { file, run } => audit_file(alloc, file, run, files, out),
    }
}

/// Does what the words ask for, and tells how it ended.
fn run_words<F: Files, S: Source, K: Sink, E: Sink, D: Disk, C: Chooser, W: Watch>(
    alloc: Global,
    words: &[String],
    files: &mut F,
    input: &mut S,
    out: &mut K,
    err: &mut E,
    disk: &mut D,
    chooser: &mut C,
    watch: &mut W,
) -> u8
    ensures answers { Answers longest_input (asked (map string_bytes words.now))
        (⟦<Call as Shows<F, S, K, E, D, C, W>>⟧.shown files.old input.old out.old err.old disk.old chooser.old watch.old)
        (⟦<Call as Shows<F, S, K, E, D, C, W>>⟧.shown files.new input.new out.new err.new disk.new chooser.new watch.new)
        (D.facts disk.old) (D.facts disk.new) result }
    ensures aside { LeavesUnasked (asked (map string_bytes words.now))
        (⟦<Call as Shows<F, S, K, E, D, C, W>>⟧.shown files.old input.old out.old err.old disk.old chooser.old watch.old)
        (⟦<Call as Shows<F, S, K, E, D, C, W>>⟧.shown files.new input.new out.new err.new disk.new chooser.new watch.new) }
    ensures untouched { store_in (asked (map string_bytes words.now)) ≡ None → disk.new ≡ disk.old }
{
    match command_of(alloc, words) {
        Ok(command) => {
            let ending = perform(alloc, command, files, input, out, err, disk, chooser, watch);
            tell(err, program_name(&command), ending)
        }
        Err(WordsError::Usage) => tell(err, "", Ending::Misused),
        Err(WordsError::NoMemory) => tell(err, "", Ending::NoMemory),
    }
}

/// StateFlow: `check FILE` checks the program in FILE; `compile FILE` prints its graph, and tells it to the watch; `local FILE` runs
/// the request lines of `input` on it, each request at once; `run FILE` runs them in batches, along what is chosen, and tells the watch
/// the graph and its events: without a store from nothing committed on, and else from the core of the store in the folder that is named,
/// which keeps what is committed; `gen` does so with a program and requests that it makes, and prints one line that sums up what came of it;
/// `audit FILE RUN` judges the request lines and reply lines of RUN by a serial run of the program in FILE.
pub fn stateflow<F: Files, S: Source, K: Sink, E: Sink, D: Disk, C: Chooser, W: Watch>(
    alloc: Global,
    words: &[String],
    files: &mut F,
    input: &mut S,
    out: &mut K,
    err: &mut E,
    disk: &mut D,
    chooser: &mut C,
    watch: &mut W,
) -> u8
    ensures promise { let before : Devices = ⟦<Call as Shows<F, S, K, E, D, C, W>>⟧.shown files.old input.old out.old err.old disk.old chooser.old watch.old in
        let after : Devices = ⟦<Call as Shows<F, S, K, E, D, C, W>>⟧.shown files.new input.new out.new err.new disk.new chooser.new watch.new in
        Promise (asked (map string_bytes words.now)) before after (D.facts disk.old) (D.facts disk.new) result }
    ensures untouched { store_in (asked (map string_bytes words.now)) ≡ None → disk.new ≡ disk.old }
{
    run_words(alloc, words, files, input, out, err, disk, chooser, watch)
}
