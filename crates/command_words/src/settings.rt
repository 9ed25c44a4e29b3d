//! The settings of commands, from the texts that their words give.

ghost use Rattle.std.specs.Prelude.{◌≡◌, option_map, None};
ghost use Rattle.clap.specs.Words.{first_value, found_of};
ghost use Rattle.command_words.specs.Numbers.{or_usual};
ghost use Rattle.command_words.specs.Commands as spec;

use crate::command::{Command, GenWords, RunWords};
use crate::numbers::{count_of, count_or, number_of, number_or};
use clap::ArgMatches;

/// The greatest and the usual number of pending requests that make a batch due.
const MOST_IN_BATCH: u32 = 256;

const USUAL_BATCH: u32 = 64;

/// The greatest and the usual number of partitions.
const MOST_PARTITIONS: u32 = 64;

const USUAL_PARTITIONS: u32 = 4;

/// The schedule where none is named.
const USUAL_SCHEDULE: u64 = 0;

/// The greatest and the usual number of batches between two checkpoints.
const MOST_BETWEEN: u32 = 65_535;

const USUAL_BETWEEN: u32 = 64;

/// The usual bound of the history; the greatest is that of the type.
const USUAL_HISTORY: u32 = 16_777_216;

/// The greatest number of requests that are generated.
const MOST_GENERATED: u32 = 100_000;

fn batch_in(found: &ArgMatches) -> Option<u32>
    ensures { result ≡ spec.batch_in (first_value (found_of found.now)) }
{
    count_or(MOST_IN_BATCH, USUAL_BATCH, found.get_str("batch"))
}

fn partitions_in(found: &ArgMatches) -> Option<u32>
    ensures { result ≡ spec.partitions_in (first_value (found_of found.now)) }
{
    count_or(
        MOST_PARTITIONS,
        USUAL_PARTITIONS,
        found.get_str("partitions"),
    )
}

fn schedule_in(found: &ArgMatches) -> Option<u64>
    ensures { result ≡ spec.schedule_in (first_value (found_of found.now)) }
{
    number_or(USUAL_SCHEDULE, found.get_str("schedule"))
}

/// The folder of a store, or none where there is no text.
fn folder_or_none<'a>(text: Option<&'a str>) -> Option<Option<&'a str>>
    ensures { option_map (option_map (λ t. t.now)) result ≡ or_usual spec.folder_of None (option_map (λ t. t.now) text.entry) }
{
    let Some(folder) = text else {
        return Some(None);
    };
    if folder.is_empty() || folder == "-" {
        return None;
    }
    Some(Some(folder))
}

fn store_in<'a>(found: &ArgMatches<'a>) -> Option<Option<&'a str>>
    ensures { option_map (option_map (λ t. t.now)) result ≡ spec.store_in (first_value (found_of found.now)) }
{
    folder_or_none(found.get_str("store"))
}

/// The folder of a store that must be named.
fn needed_store<'a>(found: &ArgMatches<'a>) -> Option<&'a str>
    ensures { option_map (λ t. t.now) result ≡ spec.needed_store (first_value (found_of found.now)) }
{
    store_in(found)?
}

fn every_in(found: &ArgMatches) -> Option<u32>
    ensures { result ≡ spec.every_in (first_value (found_of found.now)) }
{
    count_or(MOST_BETWEEN, USUAL_BETWEEN, found.get_str("every"))
}

fn history_in(found: &ArgMatches) -> Option<u32>
    ensures { result ≡ spec.history_in (first_value (found_of found.now)) }
{
    count_or(u32::MAX, USUAL_HISTORY, found.get_str("history"))
}

fn trace_in(found: &ArgMatches) -> bool
    ensures { result ≡ spec.trace_in (first_value (found_of found.now)) }
{
    found.get_str("trace").is_some()
}

fn reorder_in(found: &ArgMatches) -> bool
    ensures { result ≡ spec.reorder_in (first_value (found_of found.now)) }
{
    found.get_str("reorder").is_some()
}

fn number_in(found: &ArgMatches) -> Option<u64>
    ensures { result ≡ spec.number_in (first_value (found_of found.now)) }
{
    number_of(found.get_str("number")?)
}

fn size_in(found: &ArgMatches) -> Option<u32>
    ensures { result ≡ spec.size_in (first_value (found_of found.now)) }
{
    count_of(MOST_GENERATED, found.get_str("size")?)
}

#[tactic(auto, unfolding(crate::specs::Commands::run_settings))]
fn run_settings<'a>(found: &ArgMatches<'a>) -> Option<RunWords<'a>>
    ensures { option_map spec.settings_by result ≡ spec.run_settings (first_value (found_of found.now)) }
{
    let batch = batch_in(found)?;
    let partitions = partitions_in(found)?;
    let schedule = schedule_in(found)?;
    let store = store_in(found)?;
    let every = every_in(found)?;
    let history = history_in(found)?;
    let reorder = reorder_in(found);
    let trace = trace_in(found);
    Some(RunWords {
        batch,
        partitions,
        schedule,
        store,
        every,
        history,
        reorder,
        trace,
    })
}

#[tactic(auto, unfolding(crate::specs::Commands::gen_settings))]
fn gen_settings(found: &ArgMatches) -> Option<GenWords>
    ensures { option_map spec.work_by result ≡ spec.gen_settings (first_value (found_of found.now)) }
{
    let number = number_in(found)?;
    let size = size_in(found)?;
    let batch = batch_in(found)?;
    let partitions = partitions_in(found)?;
    Some(GenWords {
        number,
        size,
        batch,
        partitions,
    })
}

/// The file that a command is to read.
pub(crate) fn file_in<'a>(found: &ArgMatches<'a>) -> Option<&'a str>
    ensures { option_map (λ t. t.now) result ≡ spec.file_in (first_value (found_of found.now)) }
{
    found.get_str("FILE")
}

/// The command `run`, with its file and settings.
pub(crate) fn run_in<'a>(found: &ArgMatches<'a>) -> Option<Command<'a>>
    ensures { option_map spec.asked_by result ≡ spec.run_in (first_value (found_of found.now)) }
{
    let file = file_in(found)?;
    let settings = run_settings(found)?;
    Some(Command::Run { file, settings })
}

/// The command `gen`, with its settings.
pub(crate) fn gen_in<'a>(found: &ArgMatches<'a>) -> Option<Command<'a>>
    ensures { option_map spec.asked_by result ≡ spec.gen_in (first_value (found_of found.now)) }
{
    let settings = gen_settings(found)?;
    Some(Command::Gen(settings))
}

/// The command `export`, with its file and the folder of the store.
pub(crate) fn export_in<'a>(found: &ArgMatches<'a>) -> Option<Command<'a>>
    ensures { option_map spec.asked_by result ≡ spec.export_in (first_value (found_of found.now)) }
{
    let file = file_in(found)?;
    let store = needed_store(found)?;
    Some(Command::Export { file, store })
}
