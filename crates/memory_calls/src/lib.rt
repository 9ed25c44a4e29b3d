//! Calls of the program over devices in memory, for the crates of tests.
#![tactic(auto)]

mod holding;

pub use holding::{Call, Wanted, hold_answer, hold_call};
use operator_graph::{MemWatch, NoWatch};
use sf_outside::{
    Chooser, Files, ListChooser, MemDisk, MemFiles, MemSink, MemSource, Sink, Source,
};
pub use stateflow_cli::{Generator, NamedFiles, Reading, Writing, stateflow};
use std::alloc::{AllocError, Global};

/// The numbers of the calls that are to fail, of each device.
#[derive(Clone, Copy)]
pub struct Faults<'a> {
    pub file: &'a [u64],
    pub input: &'a [u64],
    pub out: &'a [u64],
    pub err: &'a [u64],
}

pub const NO_FAULTS: Faults<'static> = Faults {
    file: &[],
    input: &[],
    out: &[],
    err: &[],
};

/// What a call answered, wrote and told.
#[derive(Drop)]
pub struct Answer {
    pub status: u8,
    pub out: MemSink,
    pub err: MemSink,
    pub watch: MemWatch,
}

/// Words, as a call takes them.
pub fn words_of(alloc: Global, words: &[&str]) -> Result<Vec<String>, AllocError> {
    let mut owned = Vec::new(alloc);
    for word in words {
        owned.push(String::from_str(alloc, word)?)?;
    }
    Ok(owned)
}

/// Makes a call with these words on these files, on an input of any kind and a disk, with whoever chooses the order of events.
fn call_with<S: Source, C: Chooser>(
    alloc: Global,
    words: &[&str],
    mut files: MemFiles,
    input: &mut S,
    disk: &mut MemDisk,
    chooser: &mut C,
    faults: Faults<'_>,
) -> Result<Answer, AllocError> {
    let words = words_of(alloc, words)?;
    let mut out = MemSink::new(alloc, 1000, faults.out)?;
    let mut err = MemSink::new(alloc, 1000, faults.err)?;
    let mut watch = MemWatch::new(alloc);
    let status = stateflow(
        alloc,
        words.as_slice(),
        &mut files,
        input,
        &mut out,
        &mut err,
        disk,
        chooser,
        &mut watch,
    );
    Ok(Answer {
        status,
        out,
        err,
        watch,
    })
}

/// Makes a call with these words, where a file has this text, on an input of any kind, with whoever chooses the order of events.
pub fn call_along<S: Source, C: Chooser>(
    alloc: Global,
    words: &[&str],
    file: (&str, &[u8]),
    input: &mut S,
    chooser: &mut C,
    faults: Faults<'_>,
) -> Result<Answer, AllocError> {
    let files = MemFiles::new(alloc, &[file.0], &[file.1], faults.file)?;
    let mut disk = MemDisk::new(alloc, 0, 0, &[])?;
    call_with(alloc, words, files, input, &mut disk, chooser, faults)
}

/// Makes a call with these words, where a file has this text, on an input of any kind and this disk.
pub fn call_on<S: Source>(
    alloc: Global,
    words: &[&str],
    file: (&str, &[u8]),
    input: &mut S,
    disk: &mut MemDisk,
    faults: Faults<'_>,
) -> Result<Answer, AllocError> {
    let files = MemFiles::new(alloc, &[file.0], &[file.1], faults.file)?;
    let mut chooser = ListChooser::new(alloc, &[])?;
    call_with(alloc, words, files, input, disk, &mut chooser, faults)
}

/// Makes a call with these words, where two files have these texts. Each read of the input is to fail.
pub fn call_on_two(
    alloc: Global,
    words: &[&str],
    first: (&str, &[u8]),
    second: (&str, &[u8]),
    faults: Faults<'_>,
) -> Result<Answer, AllocError> {
    let files = MemFiles::new(
        alloc,
        &[first.0, second.0],
        &[first.1, second.1],
        faults.file,
    )?;
    let mut input = MemSource::new(alloc, b"", faults.input)?;
    let mut disk = MemDisk::new(alloc, 0, 0, &[])?;
    let mut chooser = ListChooser::new(alloc, &[])?;
    call_with(
        alloc,
        words,
        files,
        &mut input,
        &mut disk,
        &mut chooser,
        faults,
    )
}

/// Makes a call with these words, where a file has this text, on an input of any kind.
pub fn call_beside<S: Source>(
    alloc: Global,
    words: &[&str],
    file: &str,
    text: &[u8],
    input: &mut S,
    faults: Faults<'_>,
) -> Result<Answer, AllocError> {
    let mut chooser = ListChooser::new(alloc, &[])?;
    call_along(alloc, words, (file, text), input, &mut chooser, faults)
}

/// Makes a call with these words, where a file has this text, on this input.
pub fn call(
    alloc: Global,
    words: &[&str],
    file: &str,
    text: &[u8],
    input: &[u8],
    faults: Faults<'_>,
) -> Result<Answer, AllocError> {
    let mut input = MemSource::new(alloc, input, faults.input)?;
    call_beside(alloc, words, file, text, &mut input, faults)
}

/// Makes a call with these words on these devices and an empty disk, and gives its status. The watch keeps nothing.
pub fn call_devices<F: Files, S: Source, K: Sink>(
    alloc: Global,
    words: &[&str],
    files: &mut F,
    input: &mut S,
    out: &mut K,
    err: &mut MemSink,
) -> Result<u8, AllocError> {
    let words = words_of(alloc, words)?;
    let mut disk = MemDisk::new(alloc, 0, 0, &[])?;
    let status = stateflow(
        alloc,
        words.as_slice(),
        files,
        input,
        out,
        err,
        &mut disk,
        &mut Generator::new(),
        &mut NoWatch,
    );
    drop(disk);
    drop(words);
    Ok(status)
}
