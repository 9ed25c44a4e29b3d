//! Runs on a disk in memory, one after another, and what each has to say.

use memory_calls::{Answer, Faults, NO_FAULTS, call_on};
use sf_outside::{MemDisk, MemSource};
use std::alloc::{AllocError, Global};
use std::test::Fail;

/// Requests are run one by one on the store `s`.
pub const ONE_BY_ONE: &[&str] = &["run", "a.py", "--store", "s", "--batch", "1"];

/// A run: its words, the text of its file `a.py`, its input with the numbers of the reads that fail, and what it answers and writes.
#[derive(Clone, Copy)]
pub struct Run {
    pub label: &'static str,
    pub words: &'static [&'static str],
    pub program: &'static str,
    pub input: &'static str,
    pub unread: &'static [u64],
    pub status: u8,
    pub out: &'static str,
    pub err: &'static str,
}

/// A disk that has room for a session's store and for its calls, of which these are to fail.
pub fn disk(alloc: Global, fail_at: &[u64]) -> Result<MemDisk, AllocError> {
    MemDisk::new(alloc, 20_000, 2_000, fail_at)
}

/// What a run answers on a disk, beside devices with these faults.
pub fn answer_with(
    alloc: Global,
    disk: &mut MemDisk,
    run: &Run,
    faults: Faults<'_>,
) -> Result<Answer, AllocError> {
    let mut input = MemSource::new(alloc, run.input.as_bytes(), faults.input)?;
    let file = ("a.py", run.program.as_bytes());
    let answer = call_on(alloc, run.words, file, &mut input, disk, faults);
    drop(input);
    answer
}

/// The same where none but the run's own reads fail.
pub fn answer_on(alloc: Global, disk: &mut MemDisk, run: &Run) -> Result<Answer, AllocError> {
    let faults = Faults {
        input: run.unread,
        ..NO_FAULTS
    };
    answer_with(alloc, disk, run, faults)
}

fn says(answer: &Answer, run: &Run) -> bool {
    answer.status == run.status
        && answer.out.bytes() == run.out.as_bytes()
        && answer.err.bytes() == run.err.as_bytes()
}

/// Whether a run on a disk says what it has to.
pub fn runs_on(alloc: Global, disk: &mut MemDisk, run: &Run) -> Result<bool, AllocError> {
    let answer = answer_on(alloc, disk, run)?;
    let said = says(&answer, run);
    drop(answer);
    Ok(said)
}

/// A run on a disk, which fails by its label where it doesn't say what it has to.
pub fn run_on(alloc: Global, disk: &mut MemDisk, run: &Run) -> Result<(), Fail> {
    if runs_on(alloc, disk, run)? {
        return Ok(());
    }
    Err(Fail::from(run.label))
}

/// Runs one after another on a disk, up to one that says something else.
pub fn each_runs_on(alloc: Global, disk: &mut MemDisk, runs: &[Run]) -> Result<(), Fail> {
    for run in runs {
        run_on(alloc, disk, run)?;
    }
    Ok(())
}

/// The same on a disk of their own.
pub fn each_runs(alloc: Global, runs: &[Run]) -> Result<(), Fail> {
    let mut disk = disk(alloc, &[])?;
    let ran = each_runs_on(alloc, &mut disk, runs);
    drop(disk);
    ran
}
