//! What words give, as `clap` finds it.

ghost use Rattle.std.specs.Prelude.{◌≡◌, map, string_bytes, [], ◌⊎◌, IfOk, IfErr, true};
ghost use Rattle.std.specs.List.{list_all};
ghost use Rattle.clap.specs.Words.{app_of, fault_of, found_of, kind_of, matches_of, rows_of, is_simple_and_free};
ghost use Rattle.command_words.specs.WordReading as spec;
ghost use Rattle.command_words.specs.Commands.{file_parts, run_parts, gen_parts, export_parts};
ghost use Rattle.command_words.specs.Readings.{Finds, Matches, usage_or_memory};

use crate::command::WordsError;
use crate::parser::{export_command, file_command, gen_command, run_command};
use clap::error::ErrorKind;
use clap::{ArgMatches, Command, Error};
use std::alloc::{AllocError, Global};

/// Whether a word can stand behind a command's name: it isn't empty, `-` or `--`, and no hyphen stands alone before it.
fn is_formed(word: &str) -> bool
    ensures { result ≡ spec.is_formed (spec.form_of word.now) }
{
    match word.as_bytes() {
        [] => false,
        [b'-', b'-', _, ..] => true,
        [b'-', ..] => false,
        _ => true,
    }
}

fn are_formed(words: &[String]) -> bool
    ensures { result ≡ list_all (λ w. spec.is_formed (spec.form_of (string_bytes w))) words.now }
{
    words.iter().all(|word| is_formed(word.as_str()))
}

/// Why `clap` gave no matches.
fn cause(error: Error) -> WordsError
    ensures { result ≡ usage_or_memory (kind_of error) }
{
    if error.kind() == ErrorKind::OutOfMemory {
        return WordsError::NoMemory;
    }
    WordsError::Usage
}

/// What `clap` finds.
fn matches_in<'a>(command: Command<'a>, words: &'a [String]) -> Result<ArgMatches<'a>, WordsError>
    requires { is_simple_and_free (app_of command) ≡ true }
    ensures { Matches (app_of command.entry) (map string_bytes words.entry.now) result }
{
    match command.try_get_matches_from(words) {
        Ok(matches) => Ok(matches),
        Err(error) => Err(cause(error)),
    }
}

/// What the words of a command that takes a file give.
pub(crate) fn file_words<'a>(
    alloc: Global,
    words: &'a [String],
) -> Result<ArgMatches<'a>, WordsError>
    ensures { Finds (spec.given file_parts (map string_bytes words.entry.now)) result }
{
    if !are_formed(words) {
        return Err(WordsError::Usage);
    }
    match file_command(alloc) {
        Ok(command) => matches_in(command, words),
        Err(_) => Err(WordsError::NoMemory),
    }
}

/// What the words of `run` give.
pub(crate) fn run_words<'a>(
    alloc: Global,
    words: &'a [String],
) -> Result<ArgMatches<'a>, WordsError>
    ensures { Finds (spec.given run_parts (map string_bytes words.entry.now)) result }
{
    if !are_formed(words) {
        return Err(WordsError::Usage);
    }
    match run_command(alloc) {
        Ok(command) => matches_in(command, words),
        Err(_) => Err(WordsError::NoMemory),
    }
}

/// What the words of `gen` give.
pub(crate) fn gen_words<'a>(
    alloc: Global,
    words: &'a [String],
) -> Result<ArgMatches<'a>, WordsError>
    ensures { Finds (spec.given gen_parts (map string_bytes words.entry.now)) result }
{
    if !are_formed(words) {
        return Err(WordsError::Usage);
    }
    match gen_command(alloc) {
        Ok(command) => matches_in(command, words),
        Err(_) => Err(WordsError::NoMemory),
    }
}

/// What the words of `export` give.
pub(crate) fn export_words<'a>(
    alloc: Global,
    words: &'a [String],
) -> Result<ArgMatches<'a>, WordsError>
    ensures { Finds (spec.given export_parts (map string_bytes words.entry.now)) result }
{
    if !are_formed(words) {
        return Err(WordsError::Usage);
    }
    match export_command(alloc) {
        Ok(command) => matches_in(command, words),
        Err(_) => Err(WordsError::NoMemory),
    }
}
