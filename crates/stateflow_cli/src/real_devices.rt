//! Devices over any reader, any writer, and the files of the system. They tell what those tell.

ghost use Rattle.std.specs.Prelude.{◌≡◌, ◌≤◌, None};
ghost use Rattle.std.specs.Io.{ReadsAtMost};
ghost use Rattle.sf_outside.specs.Causes.{Rose};

use sf_outside::{Failed, Files, Sink, Source};
use std::fs;
use std::io::{self, Read, Seek, SeekFrom, Write};

/// A reader, with a count of its faults.
#[derive(Drop)]
pub struct Reading<R> {
    inner: R,
    faults: u64,
}

impl<R: Read> Reading<R> {
    pub fn new(inner: R) -> Reading<R>
        ensures inner { result.inner ≡ inner }
        ensures faults { result.faults ≡ 0 }
    {
        Reading { inner, faults: 0 }
    }
}

impl<R: Read> Source for Reading<R> {
    ghost left = { λ reading. R.remaining reading.inner };

    ghost faults = { λ reading. reading.faults };

    fn read(&mut self, buf: &mut [u8]) -> Result<usize, Failed> {
        match self.inner.read(buf) {
            Ok(count) => Ok(count),
            Err(_) => {
                self.faults = self.faults.saturating_add(1);
                Err(Failed)
            }
        }
    }
}

/// A writer, with a count of its faults.
#[derive(Drop)]
pub struct Writing<W> {
    inner: W,
    faults: u64,
}

impl<W: Write> Writing<W> {
    pub fn new(inner: W) -> Writing<W>
        ensures inner { result.inner ≡ inner }
        ensures faults { result.faults ≡ 0 }
    {
        Writing { inner, faults: 0 }
    }

    /// Counts a fault.
    fn fault(&mut self) -> Failed
        ensures kept { self.new.inner ≡ self.old.inner }
        ensures later { self.old.faults ≤ self.new.faults }
        ensures rose { Rose self.old.faults self.new.faults }
    {
        self.faults = self.faults.saturating_add(1);
        Failed
    }
}

impl<W: Write> Sink for Writing<W> {
    ghost held = { λ writing. W.contents writing.inner };

    ghost handed = { λ _. None };

    ghost faults = { λ writing. writing.faults };

    fn write(&mut self, bytes: &[u8]) -> Result<(), Failed> {
        let mut written = 0;
        while written < bytes.len() {
            match self.inner.write(&bytes[written..]) {
                Ok(0) | Err(_) => return Err(self.fault()),
                Ok(count) => written += count,
            }
        }
        Ok(())
    }

    fn flush(&mut self) -> Result<(), Failed> {
        match self.inner.flush() {
            Ok(()) => Ok(()),
            Err(_) => Err(self.fault()),
        }
    }
}

/// The files of the system, by their paths, with a count of their faults. What they hold is not told.
#[derive(Drop)]
pub struct NamedFiles<R> {
    system: R,
    faults: u64,
}

impl<R: fs::Files> NamedFiles<R> {
    pub fn new(system: R) -> NamedFiles<R>
        ensures faults { result.faults ≡ 0 }
    {
        NamedFiles { system, faults: 0 }
    }
}

fn read_file_at<R: fs::Files>(system: &R, name: &str, at: u64, buf: &mut [u8]) -> io::Result<usize>
    ensures bound { ReadsAtMost result buf.new }
{
    let mut file = fs::open(system, name)?;
    file.seek(SeekFrom::Start(at))?;
    file.read(buf)
}

impl<R: fs::Files> Files for NamedFiles<R> {
    ghost content = { λ _ _. None };

    ghost faults = { λ files _. files.faults };

    fn read_at(&mut self, name: &str, at: u64, buf: &mut [u8]) -> Result<usize, Failed> {
        match read_file_at(&self.system, name, at, buf) {
            Ok(count) => Ok(count),
            Err(_) => {
                self.faults = self.faults.saturating_add(1);
                Err(Failed)
            }
        }
    }
}
