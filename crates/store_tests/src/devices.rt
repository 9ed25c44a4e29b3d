//! What the devices in memory do, call by call.

use sf_outside::{
    Chooser, Disk, Failed, Files, ListChooser, MemDisk, MemFiles, MemSink, MemSource, Sink, Source,
    StoreFile, write_line,
};
use std::alloc::{AllocError, Global};
use std::test::Fail;
use test_support::hold_text;
use value_texts::digits_of;

/// Puts what a call answered behind what the calls before it did.
fn add(told: &mut String, answer: &str) -> Result<(), AllocError> {
    if !told.is_empty() {
        told.push_str(", ")?;
    }
    told.push_str(answer)
}

/// What a read answered, and all of its buffer.
fn read_told(
    alloc: Global,
    answer: Result<usize, Failed>,
    buf: &[u8],
) -> Result<String, AllocError> {
    match answer {
        Ok(count) => {
            let buf = digits_of(alloc, buf)?;
            format!(in alloc; "{count} {buf}")
        }
        Err(Failed) => String::from_str(alloc, "failed"),
    }
}

/// What a call answered that gives nothing.
fn done_told(answer: Result<(), Failed>) -> &'static str {
    match answer {
        Ok(()) => "done",
        Err(Failed) => "failed",
    }
}

/// What so many reads of three bytes at most give.
fn source_told(alloc: Global, source: &mut MemSource, count: u32) -> Result<String, AllocError> {
    let mut told = String::new(alloc);
    for _ in 0..count {
        let mut buf = [0; 3];
        let answer = source.read(&mut buf);
        let read = read_told(alloc, answer, &buf)?;
        add(&mut told, read.as_str())?;
    }
    Ok(told)
}

#[test]
fn source_gives_its_bytes_in_pieces(rt: HostRuntime) -> Result<(), Fail> {
    let mut source = MemSource::new(rt.alloc(), b"hello", &[2])?;
    let told = source_told(rt.alloc(), &mut source, 4);
    drop(source);
    hold_text(told, "3 68656c, failed, 2 6c6f00, 0 000000")
}

/// Three picks of a chooser, which is then started anew, and one more.
fn picks_told(alloc: Global, chooser: &mut ListChooser) -> Result<String, AllocError> {
    let first = chooser.pick(9);
    let second = chooser.pick(1);
    let third = chooser.pick(9);
    chooser.start(7);
    let again = chooser.pick(9);
    format!(in alloc; "{first}, {second}, {third}, {again}")
}

#[test]
fn list_is_picked_then_0_and_anew_behind_a_start(rt: HostRuntime) -> Result<(), Fail> {
    let mut chooser = ListChooser::new(rt.alloc(), &[5, 3])?;
    let told = picks_told(rt.alloc(), &mut chooser);
    drop(chooser);
    hold_text(told, "5, 3, 0, 5")
}

/// What a sink answers to pieces, of which an empty one is a flush, and what it then holds.
fn sink_told(alloc: Global, sink: &mut MemSink, pieces: &[&[u8]]) -> Result<String, AllocError> {
    let mut told = String::new(alloc);
    for piece in pieces {
        let answer = if piece.is_empty() {
            sink.flush()
        } else {
            sink.write(piece)
        };
        add(&mut told, done_told(answer))?;
    }
    let held = digits_of(alloc, sink.bytes())?;
    format!(in alloc; "{told}, holds {held}")
}

#[test]
fn sink_holds_pieces_up_to_its_room(rt: HostRuntime) -> Result<(), Fail> {
    let mut sink = MemSink::new(rt.alloc(), 5, &[3])?;
    let told = sink_told(rt.alloc(), &mut sink, &[b"abc", b"", b"x", b"def", b"de"]);
    drop(sink);
    hold_text(told, "done, done, failed, failed, done, holds 6162636465")
}

/// What reads of files of four bytes at most give, each from a place.
fn files_told(
    alloc: Global,
    files: &mut MemFiles,
    reads: &[(&str, u64)],
) -> Result<String, AllocError> {
    let mut told = String::new(alloc);
    for (name, at) in reads {
        let mut buf = [0; 4];
        let answer = files.read_at(name, *at, &mut buf);
        let read = read_told(alloc, answer, &buf)?;
        add(&mut told, read.as_str())?;
    }
    Ok(told)
}

#[test]
fn files_are_read_by_name(rt: HostRuntime) -> Result<(), Fail> {
    let mut files = MemFiles::new(
        rt.alloc(),
        &["a", "b", "a"],
        &[b"first", b"", b"second"],
        &[3],
    )?;
    let reads = [("a", 2), ("b", 0), ("a", 0), ("c", 0), ("a", 9)];
    let told = files_told(rt.alloc(), &mut files, &reads);
    drop(files);
    hold_text(told, "3 72737400, 0 00000000, failed, failed, 0 00000000")
}

/// What two lines come to that are written, and what the sink then holds.
fn lines_told(alloc: Global, sink: &mut MemSink) -> Result<String, AllocError> {
    let first = done_told(write_line(sink, b"one\n"));
    let second = done_told(write_line(sink, b"two\n"));
    let held = digits_of(alloc, sink.bytes())?;
    format!(in alloc; "{first}, {second}, holds {held}")
}

#[test]
fn a_line_is_written_or_stops(rt: HostRuntime) -> Result<(), Fail> {
    let mut sink = MemSink::new(rt.alloc(), 9, &[2])?;
    let told = lines_told(rt.alloc(), &mut sink);
    drop(sink);
    hold_text(told, "done, failed, holds 6f6e650a")
}

/// A disk of 8 bytes a file, which takes 7 calls, and whose fourth fails.
fn small_disk(alloc: Global) -> Result<MemDisk, Fail> {
    let mut disk = MemDisk::new(alloc, 8, 7, &[4])?;
    match disk.mount(alloc, "s") {
        Ok(()) => Ok(disk),
        Err(_) => Err(Fail::from("not mounted")),
    }
}

/// The length of a file, or that the call failed.
fn length_told(alloc: Global, disk: &mut MemDisk, file: StoreFile) -> Result<String, AllocError> {
    match disk.len(file) {
        Ok(length) => format!(in alloc; "{length}"),
        Err(Failed) => String::from_str(alloc, "failed"),
    }
}

/// What a write, the length, a sync and a read of four bytes from place 1 answer.
fn written_told(alloc: Global, disk: &mut MemDisk) -> Result<String, AllocError> {
    let file = StoreFile::Log0;
    let written = done_told(disk.write_at(file, 2, b"abc"));
    let length = length_told(alloc, disk, file)?;
    let synced = done_told(disk.sync(file));
    let mut buf = [9; 4];
    let answer = disk.read_at(file, 1, &mut buf);
    let read = read_told(alloc, answer, &buf)?;
    format!(in alloc; "{written}, {length}, {synced}, {read}")
}

#[test]
fn disk_keeps_what_was_written(rt: HostRuntime) -> Result<(), Fail> {
    let mut disk = small_disk(rt.alloc())?;
    let told = written_told(rt.alloc(), &mut disk);
    drop(disk);
    hold_text(told, "done, 5, failed, 4 00616263")
}

/// What a write past the room, the length and one more call answer.
fn refused_told(alloc: Global, disk: &mut MemDisk) -> Result<String, AllocError> {
    let written = done_told(disk.write_at(StoreFile::Snap1, 6, b"xyz"));
    let length = length_told(alloc, disk, StoreFile::Snap1)?;
    let fourth = length_told(alloc, disk, StoreFile::Log0)?;
    format!(in alloc; "{written}, {length}, {fourth}")
}

#[test]
fn disk_refuses_what_has_no_room(rt: HostRuntime) -> Result<(), Fail> {
    let mut disk = small_disk(rt.alloc())?;
    let told = refused_told(rt.alloc(), &mut disk);
    drop(disk);
    hold_text(told, "failed, 0, failed")
}

/// What so many calls for a length answer.
fn lengths_told(alloc: Global, disk: &mut MemDisk, count: u32) -> Result<String, AllocError> {
    let mut told = String::new(alloc);
    for _ in 0..count {
        let length = length_told(alloc, disk, StoreFile::Log0)?;
        add(&mut told, length.as_str())?;
    }
    Ok(told)
}

#[test]
fn disk_takes_so_many_calls(rt: HostRuntime) -> Result<(), Fail> {
    let mut disk = small_disk(rt.alloc())?;
    let told = lengths_told(rt.alloc(), &mut disk, 7);
    drop(disk);
    hold_text(told, "0, 0, failed, 0, 0, 0, failed")
}

/// What two mounts answer, of which the first is to fail.
fn mounts_told(alloc: Global) -> Result<String, AllocError> {
    let mut disk = MemDisk::new(alloc, 1, 2, &[1])?;
    let first = disk.mount(alloc, "s");
    let second = disk.mount(alloc, "s");
    drop(disk);
    format!(in alloc; "{first:?}, {second:?}")
}

#[test]
fn a_mount_is_refused_and_then_done(rt: HostRuntime) -> Result<(), Fail> {
    hold_text(mounts_told(rt.alloc()), "Err(Failed), Ok(())")
}
