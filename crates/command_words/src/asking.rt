//! The command that words ask for.

ghost use Rattle.std.specs.Prelude.{◌≡◌, map, string_bytes, option_map};
ghost use Rattle.command_words.specs.Commands.{Ask, asked_by, audit_of, file_parts, run_parts, gen_parts, export_parts};
ghost use Rattle.command_words.specs.Commands.{file_in as file_given, run_in as run_given, gen_in as gen_given, export_in as export_given};
ghost use Rattle.command_words.specs.Grammar.{stands_alone};
ghost use Rattle.command_words.specs.CommandReading as spec;
ghost use Rattle.command_words.specs.Readings.{Reads, ReadsOnly};

use crate::command::{Command, WordsError};
use crate::reading::{export_words, file_words, gen_words, run_words};
use crate::settings::{export_in, file_in, gen_in, run_in};
use std::alloc::Global;

/// The file that the words of a command name, where it takes nothing else.
#[tactic(auto, using(crate::proofs::AskedLaws::told), unfolding(crate::specs::CommandReading::asked_with))]
fn file_asked<'a>(alloc: Global, words: &'a [String]) -> Result<&'a str, WordsError>
    ensures { Reads (λ t. t.now) (spec.asked_with file_parts file_given (map string_bytes words.entry.now)) result }
{
    let found = file_words(alloc, words)?;
    let file = file_in(&found);
    drop(found);
    file.ok_or(WordsError::Usage)
}

/// What the words of `run` ask for.
#[tactic(auto, using(crate::proofs::AskedLaws::told), unfolding(crate::specs::CommandReading::asked_with))]
fn run_asked<'a>(alloc: Global, words: &'a [String]) -> Result<Command<'a>, WordsError>
    ensures { Reads asked_by (spec.asked_with run_parts run_given (map string_bytes words.entry.now)) result }
{
    let found = run_words(alloc, words)?;
    let command = run_in(&found);
    drop(found);
    command.ok_or(WordsError::Usage)
}

/// What the words of `gen` ask for.
#[tactic(auto, using(crate::proofs::AskedLaws::told), unfolding(crate::specs::CommandReading::asked_with))]
fn gen_asked<'a>(alloc: Global, words: &'a [String]) -> Result<Command<'a>, WordsError>
    ensures { Reads asked_by (spec.asked_with gen_parts gen_given (map string_bytes words.entry.now)) result }
{
    let found = gen_words(alloc, words)?;
    let command = gen_in(&found);
    drop(found);
    command.ok_or(WordsError::Usage)
}

/// What the words of `export` ask for.
#[tactic(auto, using(crate::proofs::AskedLaws::told), unfolding(crate::specs::CommandReading::asked_with))]
fn export_asked<'a>(alloc: Global, words: &'a [String]) -> Result<Command<'a>, WordsError>
    ensures { Reads asked_by (spec.asked_with export_parts export_given (map string_bytes words.entry.now)) result }
{
    let found = export_words(alloc, words)?;
    let command = export_in(&found);
    drop(found);
    command.ok_or(WordsError::Usage)
}

/// Whether a word isn't empty and doesn't begin with a hyphen.
fn stands_alone(word: &str) -> bool
    ensures { result ≡ stands_alone word.now }
{
    match word.as_bytes() {
        [] => false,
        [first, ..] => *first != b'-',
    }
}

/// What the words of `audit` ask for.
#[tactic(auto, unfolding(crate::specs::Commands::audit_of))]
fn audit_asked<'a>(words: &'a [String]) -> Option<Command<'a>>
    ensures { option_map asked_by result ≡ audit_of (map string_bytes words.entry.now) }
{
    let [file, run] = words else {
        return None;
    };
    let file = file.as_str();
    let run = run.as_str();
    if !stands_alone(file) || !stands_alone(run) {
        return None;
    }
    Some(Command::Audit { file, run })
}

/// What the words behind a command's name ask for.
#[tactic(auto, using(crate::proofs::AskedLaws::of_file), unfolding(crate::specs::CommandReading::asked_by_name))]
fn asked_by_name<'a>(
    alloc: Global,
    name: &str,
    words: &'a [String],
) -> Result<Command<'a>, WordsError>
    ensures { Reads asked_by (spec.asked_by_name name.entry.now (map string_bytes words.entry.now)) result }
{
    if name == "audit" {
        return audit_asked(words).ok_or(WordsError::Usage);
    }
    if name == "check" {
        let file = file_asked(alloc, words)?;
        return Ok(Command::Check { file });
    }
    if name == "compile" {
        let file = file_asked(alloc, words)?;
        return Ok(Command::Compile { file });
    }
    if name == "local" {
        let file = file_asked(alloc, words)?;
        return Ok(Command::Local { file });
    }
    if name == "run" {
        return run_asked(alloc, words);
    }
    if name == "gen" {
        return gen_asked(alloc, words);
    }
    if name == "export" {
        return export_asked(alloc, words);
    }
    Err(WordsError::Usage)
}

/// The command that the words of a call ask for, the first of them being its name.
///
/// # Errors
///
/// `Usage` where they ask for none, `NoMemory` where memory runs out before that is known.
pub fn command_of<'a>(alloc: Global, words: &'a [String]) -> Result<Command<'a>, WordsError>
    ensures { ReadsOnly asked_by (Ask (map string_bytes words.entry.now)) result }
{
    match words {
        [] => Err(WordsError::Usage),
        [name, rest @ ..] => asked_by_name(alloc, name.as_str(), rest),
    }
}
