//! The devices of the system, one at a time: the program's file, the input or the output is a file of the system.

use memory_calls::{NamedFiles, Reading, Writing, call_devices};
use sf_outside::{Files, MemFiles, MemSink, MemSource, Sink, Source};
use std::alloc::{AllocError, Global};
use std::fs;
use std::process::Abort;
use std::test::Fail;
use test_support::COUNTER;

/// Makes a call with these words on these devices, and asserts its status and what it wrote on its error stream.
fn hold_on<F: Files, S: Source, K: Sink>(
    rt: &impl Abort,
    alloc: Global,
    words: &[&str],
    (files, input, out): (&mut F, &mut S, &mut K),
    status: u8,
    line: &[u8],
) -> Result<(), Fail> {
    let mut err = MemSink::new(alloc, 1000, &[])?;
    let answered = call_devices(alloc, words, files, input, out, &mut err)?;
    assert_eq!(rt; err.bytes(), line);
    assert_eq!(rt; answered, status);
    Ok(())
}

/// The counter, as a file in memory.
fn counter_file(alloc: Global) -> Result<MemFiles, AllocError> {
    MemFiles::new(alloc, &["counter.py"], &[COUNTER.as_bytes()], &[])
}

/// Asserts what a call with these words on a file of the system answers and writes.
fn hold_files<F: Files>(
    rt: &impl Abort,
    alloc: Global,
    file: &str,
    files: &mut F,
    (status, printed, line): (u8, &[u8], &[u8]),
) -> Result<(), Fail> {
    let mut input = MemSource::new(alloc, b"", &[])?;
    let mut out = MemSink::new(alloc, 1000, &[])?;
    let devices = (files, &mut input, &mut out);
    hold_on(rt, alloc, &["check", file], devices, status, line)?;
    assert_eq!(rt; out.bytes(), printed);
    Ok(())
}

/// Asserts what `local` with the counter writes for an input.
fn hold_input<S: Source>(
    rt: &impl Abort,
    alloc: Global,
    input: &mut S,
    replies: &[u8],
) -> Result<(), Fail> {
    let mut files = counter_file(alloc)?;
    let mut out = MemSink::new(alloc, 1000, &[])?;
    let devices = (&mut files, input, &mut out);
    hold_on(rt, alloc, &["local", "counter.py"], devices, 0, b"")?;
    assert_eq!(rt; out.bytes(), replies);
    Ok(())
}

/// Asserts with which status and line a call of the counter on an input ends whose output is this.
fn hold_output<K: Sink>(
    rt: &impl Abort,
    alloc: Global,
    (command, input): (&str, &[u8]),
    out: &mut K,
    status: u8,
    line: &[u8],
) -> Result<(), Fail> {
    let mut files = counter_file(alloc)?;
    let mut input = MemSource::new(alloc, input, &[])?;
    let devices = (&mut files, &mut input, out);
    hold_on(rt, alloc, &[command, "counter.py"], devices, status, line)
}

const SECOND_CLASS: &[u8] = b"@entity
class Second:
    def __init__(self, k: str):
        self.k: str = k
    def __key__(self):
        return self.k
    def name(self) -> str:
        return self.k
";

/// A program of two classes, which stand in the first and in the second piece of its file.
fn program_of_three_pieces(alloc: Global) -> Result<Vec<u8>, AllocError> {
    let mut text = Vec::from_slice(alloc, COUNTER.as_bytes())?;
    text.resize(20_000, b'\n')?;
    text.extend_from_slice(SECOND_CLASS)?;
    text.resize(40_000, b'\n')?;
    Ok(text)
}

const REQUESTS: &[u8] = b"{\"id\":\"a\",\"class\":\"Counter\",\"new\":[\"x\",3]}
{\"id\":\"b\",\"class\":\"Counter\",\"key\":\"x\",\"method\":\"add\",\"args\":[4]}
";

const REPLIES: &[u8] = b"{\"id\":\"a\",\"ok\":\"x\",\"seq\":1}
{\"id\":\"b\",\"ok\":7,\"seq\":2}
";

/// Empty lines and then the requests, of which the second goes on in the second piece of the input.
fn input_of_two_pieces(alloc: Global) -> Result<Vec<u8>, AllocError> {
    let mut input = Vec::new(alloc);
    input.resize(4_000, b'\n')?;
    input.extend_from_slice(REQUESTS)?;
    Ok(input)
}

#[test]
fn file_of_three_pieces_is_checked(rt: HostRuntime) -> Result<(), Fail> {
    let text = program_of_three_pieces(rt.alloc())?;
    fs::write(&rt, "three_pieces.py", text)?;
    let mut files = NamedFiles::new(&rt);
    let wanted = (0, b"ok: 2 classes, 2 methods\n".as_slice(), b"".as_slice());
    hold_files(&rt, rt.alloc(), "three_pieces.py", &mut files, wanted)?;
    fs::remove_file(&rt, "three_pieces.py")?;
    Ok(())
}

#[test]
fn missing_file_is_a_read_fault(rt: HostRuntime) -> Result<(), Fail> {
    let mut files = NamedFiles::new(&rt);
    let wanted = (3, b"".as_slice(), b"stateflow: read fault\n".as_slice());
    hold_files(&rt, rt.alloc(), "missing.py", &mut files, wanted)
}

#[test]
fn input_of_two_pieces_is_served(rt: HostRuntime) -> Result<(), Fail> {
    let lines = input_of_two_pieces(rt.alloc())?;
    fs::write(&rt, "two_pieces.jsonl", lines)?;
    let mut input = Reading::new(fs::open(&rt, "two_pieces.jsonl")?);
    hold_input(&rt, rt.alloc(), &mut input, REPLIES)?;
    fs::remove_file(&rt, "two_pieces.jsonl")?;
    Ok(())
}

#[test]
fn replies_are_written_to_a_file(rt: HostRuntime) -> Result<(), Fail> {
    let mut out = Writing::new(fs::create(&rt, "replies.jsonl")?);
    hold_output(&rt, rt.alloc(), ("local", REQUESTS), &mut out, 0, b"")?;
    let written = fs::read(&rt, "replies.jsonl")?;
    fs::remove_file(&rt, "replies.jsonl")?;
    assert_eq!(rt; written.as_slice(), REPLIES);
    Ok(())
}

const WRITE_FAULT: &[u8] = b"stateflow: write fault\n";

#[test]
fn full_output_is_a_write_fault(rt: HostRuntime) -> Result<(), Fail> {
    let mut out = Writing::new(fs::create(&rt, "/dev/full")?);
    hold_output(
        &rt,
        rt.alloc(),
        ("local", REQUESTS),
        &mut out,
        4,
        WRITE_FAULT,
    )
}

/// A file that is open for reading alone takes no bytes, as a closed output does.
#[test]
fn output_that_takes_nothing_is_a_write_fault(rt: HostRuntime) -> Result<(), Fail> {
    fs::write(&rt, "read_only.txt", "")?;
    let mut out = Writing::new(fs::open(&rt, "read_only.txt")?);
    hold_output(&rt, rt.alloc(), ("check", b""), &mut out, 4, WRITE_FAULT)?;
    fs::remove_file(&rt, "read_only.txt")?;
    Ok(())
}
