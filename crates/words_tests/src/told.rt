//! What the words of a row ask for, as a text.

use command_words::{Command, GenWords, RunWords, WordsError, command_of};
use std::alloc::{AllocError, Global};
use std::test::Fail;

/// The words of a row, with a blank between two. In a row `''` stands for an empty word.
fn words_of(alloc: Global, text: &str) -> Result<Vec<String>, AllocError> {
    let mut words = Vec::new(alloc);
    if text.is_empty() {
        return Ok(words);
    }
    for word in text.split(' ') {
        let word = if word == "''" { "" } else { word };
        words.push(String::from_str(alloc, word)?)?;
    }
    Ok(words)
}

/// A run as its file, batch, partitions, schedule, store, every, history and trace, and whether it reorders.
fn run_told(alloc: Global, file: &str, run: RunWords) -> Result<String, AllocError> {
    let RunWords {
        batch,
        partitions,
        schedule,
        store,
        every,
        history,
        reorder,
        trace,
    } = run;
    let store = store.unwrap_or("none");
    let order = if reorder { " reorder" } else { "" };
    format!(in alloc;
        "run {file} {batch} {partitions} {schedule} {store} {every} {history} {trace}{order}"
    )
}

/// Generated work as its number, size, batch and partitions.
fn gen_told(alloc: Global, work: GenWords) -> Result<String, AllocError> {
    let GenWords {
        number,
        size,
        batch,
        partitions,
    } = work;
    format!(in alloc; "gen {number} {size} {batch} {partitions}")
}

fn command_told(alloc: Global, command: Command) -> Result<String, AllocError> {
    match command {
        Command::Check { file } => format!(in alloc; "check {file}"),
        Command::Compile { file } => format!(in alloc; "compile {file}"),
        Command::Local { file } => format!(in alloc; "local {file}"),
        Command::Run { file, settings } => run_told(alloc, file, settings),
        Command::Gen(work) => gen_told(alloc, work),
        Command::Export { file, store } => format!(in alloc; "export {file} {store}"),
        Command::Audit { file, run } => format!(in alloc; "audit {file} {run}"),
    }
}

/// What words ask for, or `usage`.
pub(crate) fn asked(alloc: Global, text: &str) -> Result<String, Fail> {
    let words = words_of(alloc, text.trim())?;
    let told = match command_of(alloc, words.as_slice()) {
        Ok(command) => command_told(alloc, command),
        Err(WordsError::Usage) => String::from_str(alloc, "usage"),
        Err(WordsError::NoMemory) => String::from_str(alloc, "no memory"),
    };
    drop(words);
    Ok(told?)
}
