//! Files in memory.

ghost use Rattle.std.specs.Prelude.{◌≡◌, ◌≢◌, ◌≤◌, ◌||◌, ℕ, List, map, length, bytes_eq, is_err, is_none, IfOk, OnOk, IsSome, if◌then◌else◌};
ghost use Rattle.std.specs.List.{position};
ghost use Rattle.std.specs.Io.{ReadsAtMost};
ghost use Rattle.sf_outside.specs.Bytes.{Copied, ReadsAt};
ghost use Rattle.sf_outside.specs.Calls.{is_due};
ghost use Rattle.sf_outside.specs.Causes.{HasCause, next_count};
ghost use Rattle.sf_outside.specs.Named.{content_of, faults_at, listed};

use crate::calls::Calls;
use crate::copies::copy_at;
use crate::devices::{Failed, Files};
use std::alloc::{AllocError, Global};
use std::marker::Model;

/// A file, and how many calls with its name failed.
#[derive(Drop)]
pub struct MemFile {
    name: String,
    bytes: Vec<u8>,
    faults: u64,
}

impl Model for MemFile {
    ghost use Rattle.std.specs.Prelude.{string_bytes};
    ghost use Rattle.sf_outside.specs.Named.{FileState};

    ghost Value = { FileState };

    ghost view = { λ file. record { name = string_bytes file.name; bytes = file.bytes.items; faults = file.faults } };
}

impl MemFile {
    fn new(alloc: Global, name: &str, bytes: &[u8]) -> Result<MemFile, AllocError>
        ensures { IfOk result (λ made. made ≡ record { name = name.now; bytes = bytes.now; faults = 0 }) }
    {
        Ok(MemFile {
            name: String::from_str(alloc, name)?,
            bytes: Vec::from_slice(alloc, bytes)?,
            faults: 0,
        })
    }

    fn is_named(&self, name: &str) -> bool
        ensures { result ≡ bytes_eq self.now.name name.now }
    {
        self.name.as_str() == name
    }

    /// Copies its bytes from a place on.
    fn copy_at(&self, at: u64, buf: &mut [u8]) -> usize
        ensures within { result ≤ length buf.new }
        ensures copied { Copied self.now.bytes at result buf.new }
    {
        copy_at(self.bytes.as_slice(), at, buf)
    }

    /// Counts a fault.
    fn fault(&mut self) -> Failed
        ensures counted { self.new ≡ record self.old { faults = next_count self.old.faults } }
        ensures later { self.old.faults ≤ self.new.faults }
    {
        self.faults = self.faults.saturating_add(1);
        Failed
    }
}

/// Files that were given when it was made. Of equal names the first counts.
#[derive(Drop)]
pub struct MemFiles {
    files: Vec<MemFile>,
    other_faults: u64,
    calls: Calls,
}

impl Model for MemFiles {
    ghost use Rattle.sf_outside.specs.Named.{FilesState};

    ghost Value = { FilesState };

    ghost view = { λ files. record { files = files.files.items; other_faults = files.other_faults; fail_at = files.calls.fail_at; calls = files.calls.made } };
}

impl MemFiles {
    /// Files of these names, each with the bytes at the same place of `contents`. `fail_at` lists the
    /// numbers, from 1, of the calls that are to fail.
    pub fn new(
        alloc: Global,
        names: &[&str],
        contents: &[&[u8]],
        fail_at: &[u64],
    ) -> Result<MemFiles, AllocError>
        requires { length names.now ≡ length contents.now }
        ensures { IfOk result (λ made. made ≡ record {
          files = listed (map (λ name. name.now) names.now) (map (λ bytes. bytes.now) contents.now);
          other_faults = 0;
          fail_at = fail_at.now;
          calls = 0;
        }) }
    {
        let mut files = Vec::with_capacity(alloc, names.len())?;
        for (place, name) in names.iter().enumerate() {
            files.push(MemFile::new(alloc, name, contents[place])?)?;
        }
        Ok(MemFiles {
            files,
            other_faults: 0,
            calls: Calls::new(alloc, fail_at)?,
        })
    }

    /// Where the first file of this name stands.
    fn place_of(&self, name: &str) -> Option<usize>
        ensures { result ≡ position (λ file. bytes_eq file.name name.now) self.now.files }
    {
        self.files.iter().position(|file| file.is_named(name))
    }
}

impl Files for MemFiles {
    ghost content = { λ files name. content_of files.files name };

    ghost faults = { faults_at };

    fn read_at(&mut self, name: &str, at: u64, buf: &mut [u8]) -> Result<usize, Failed>
        ensures bound { ReadsAtMost result buf.new }
        ensures bytes { ReadsAt (content_of self.old.files name.now) at result buf.new }
        ensures kept { (q : List ℕ) → content_of self.new.files q ≡ content_of self.old.files q }
        ensures cause { HasCause (faults_at self.old name.now) (faults_at self.new name.now) result }
        ensures later { (q : List ℕ) → faults_at self.old q ≤ faults_at self.new q }
        ensures counted { faults_at self.new name.now ≡ (if is_err result then next_count (faults_at self.old name.now) else faults_at self.old name.now) }
        ensures quiet { OnOk result ((self.new.files ≡ self.old.files) × (self.new.other_faults ≡ self.old.other_faults)) }
        ensures others { (q : List ℕ) → q ≢ name.now → IsSome (content_of self.old.files q) → faults_at self.new q ≡ faults_at self.old q }
        ensures other_faults { IsSome (content_of self.old.files name.now) → self.new.other_faults ≡ self.old.other_faults }
        ensures fails { is_err result ≡ (is_due self.old.fail_at self.new.calls || is_none (content_of self.old.files name.now)) }
        ensures calls { self.new.calls ≡ next_count self.old.calls }
        ensures fail_at { self.new.fail_at ≡ self.old.fail_at }
    {
        let is_due = self.calls.next_fails();
        let Some(place) = self.place_of(name) else {
            self.other_faults = self.other_faults.saturating_add(1);
            return Err(Failed);
        };
        let file = &mut self.files[place];
        if is_due {
            return Err(file.fault());
        }
        Ok(file.copy_at(at, buf))
    }
}
