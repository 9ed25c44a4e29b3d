//! The files of a disk in memory. They take all their room when they are made.

ghost use Rattle.std.specs.Prelude.{◌≡◌, ◌+◌, ◌-◌, ◌^◌, ◌<◌, ◌≤◌, [], length, take, drop, replicate, IfOk};
ghost use Rattle.sf_outside.specs.DiskFiles.{FitsIn};
ghost use Rattle.sf_outside.specs.DiskModel.{of_file, with_file, written};
ghost use Rattle.sf_outside.specs.Images.{filled, longest, SameLengths};

use crate::store_disk::StoreFile;
use std::alloc::{AllocError, Global};
use std::marker::Model;

/// A file. Behind its end its room is filled with zeros.
#[derive(Drop)]
pub struct DiskFile {
    bytes: Vec<u8>,
    len: usize,
}

impl Model for DiskFile {
    ghost use Rattle.std.specs.Prelude.{◌≡◌, ◌≤◌, ◌-◌, take, drop, replicate, vec_len, length};
    ghost use Rattle.sf_outside.specs.DiskFiles.{FileRoom};

    ghost Value = { FileRoom };

    ghost view = { λ file. record { bytes = take file.len file.bytes.items; room = length file.bytes.items } };

    ghost invariant = { λ file. (file.len ≤ length file.bytes.items) × (drop file.len file.bytes.items ≡ replicate (length file.bytes.items - file.len) 0) };
}

impl DiskFile {
    fn new(alloc: Global, room: usize) -> Result<DiskFile, AllocError>
        ensures { IfOk result (λ made. made ≡ record { bytes = []; room = room }) }
    {
        Ok(DiskFile {
            bytes: vec![in alloc; 0; room]?,
            len: 0,
        })
    }

    pub fn bytes(&self) -> &[u8]
        ensures { result.now ≡ self.now.bytes }
    {
        &self.bytes[..self.len]
    }

    fn write_at(&mut self, at: usize, bytes: &[u8])
        requires { at + length bytes.now ≤ self.old.room }
        ensures { self.new ≡ record self.old { bytes = written self.old.bytes at bytes.now } }
    {
        self.len = write_into(&mut self.bytes, self.len, at, bytes);
    }

    /// A file of the same bytes with this room.
    fn copied(&self, alloc: Global, room: usize) -> Result<DiskFile, AllocError>
        requires { length self.now.bytes ≤ room }
        ensures { IfOk result (λ made. made ≡ record { bytes = self.now.bytes; room = room }) }
    {
        let mut made = DiskFile::new(alloc, room)?;
        made.write_at(0, self.bytes());
        Ok(made)
    }

    /// Puts this byte wherever a write of `n` bytes that isn't whole may leave any.
    fn fill_at(&mut self, at: usize, n: usize, fill: u8)
        requires { at + n ≤ self.old.room }
        ensures { self.new ≡ record self.old { bytes = filled fill at n self.old.bytes } }
    {
        self.len = fill_into(&mut self.bytes, self.len, at, n, fill);
    }

    /// Takes over the bytes of a file that is as long.
    fn take_from(&mut self, other: &DiskFile)
        requires { length other.now.bytes ≡ length self.old.bytes }
        ensures { self.new ≡ record self.old { bytes = other.now.bytes } }
    {
        self.len = write_into(&mut self.bytes, self.len, 0, other.bytes());
    }
}

/// Writes into the room of a file of this length, and gives its new length.
fn write_into(room: &mut [u8], len: usize, at: usize, bytes: &[u8]) -> usize
    requires within { len ≤ length room.old }
    requires fits { at + length bytes.now ≤ length room.old }
    requires zeros { drop len room.old ≡ replicate (length room.old - len) 0 }
    ensures within { result ≤ length room.old }
    ensures zeros { drop result room.new ≡ replicate (length room.old - result) 0 }
    ensures written { take result room.new ≡ written (take len room.old) at bytes.now }
{
    if bytes.is_empty() {
        return len;
    }
    let end = at + bytes.len();
    room[at..end].copy_from_slice(bytes);
    len.max(end)
}

/// Fills what a write of `n` bytes that isn't whole may change in a file of this length, and gives its new length.
fn fill_into(room: &mut [u8], len: usize, at: usize, n: usize, fill: u8) -> usize
    requires within { len ≤ length room.old }
    requires fits { at + n ≤ length room.old }
    requires zeros { drop len room.old ≡ replicate (length room.old - len) 0 }
    ensures within { result ≤ length room.old }
    ensures zeros { drop result room.new ≡ replicate (length room.old - result) 0 }
    ensures filled { take result room.new ≡ filled fill at n (take len room.old) }
{
    if n == 0 {
        return len;
    }
    let from = at.min(len);
    let end = at + n;
    room[from..end].fill(fill);
    end.max(len)
}

/// The files of a store, each with the same room.
#[derive(Drop)]
pub struct DiskFiles {
    log0: DiskFile,
    log1: DiskFile,
    snap0: DiskFile,
    snap1: DiskFile,
    hist: DiskFile,
}

impl Model for DiskFiles {
    ghost use Rattle.std.specs.Prelude.{◌≡◌};
    ghost use Rattle.sf_outside.specs.DiskFiles.{FilesRoom};

    ghost Value = { FilesRoom };

    ghost view = { λ files. record {
      image = record { log0 = files.log0.bytes; log1 = files.log1.bytes; snap0 = files.snap0.bytes; snap1 = files.snap1.bytes; hist = files.hist.bytes };
      room = files.log0.room;
    } };

    ghost invariant = { λ files. (files.log1.room ≡ files.log0.room) × (files.snap0.room ≡ files.log0.room) × (files.snap1.room ≡ files.log0.room)
        × (files.hist.room ≡ files.log0.room) };
}

impl DiskFiles {
    /// Empty files.
    pub fn new(alloc: Global, room: u64) -> Result<DiskFiles, AllocError>
        ensures { IfOk result (λ made. made ≡ record { image = record { log0 = []; log1 = []; snap0 = []; snap1 = []; hist = [] }; room = room }) }
    {
        let room = room as usize;
        Ok(DiskFiles {
            log0: DiskFile::new(alloc, room)?,
            log1: DiskFile::new(alloc, room)?,
            snap0: DiskFile::new(alloc, room)?,
            snap1: DiskFile::new(alloc, room)?,
            hist: DiskFile::new(alloc, room)?,
        })
    }

    pub fn bytes(&self, file: StoreFile) -> &[u8]
        ensures { result.now ≡ of_file file self.now.image }
    {
        match file {
            StoreFile::Log0 => self.log0.bytes(),
            StoreFile::Log1 => self.log1.bytes(),
            StoreFile::Snap0 => self.snap0.bytes(),
            StoreFile::Snap1 => self.snap1.bytes(),
            StoreFile::Hist => self.hist.bytes(),
        }
    }

    /// Writes within the room.
    pub fn write_at(&mut self, file: StoreFile, at: u64, bytes: &[u8])
        requires { at + length bytes.now ≤ self.old.room }
        ensures { self.new ≡ record self.old { image = with_file file (written (of_file file self.old.image) at bytes.now) self.old.image } }
    {
        let at = at as usize;
        match file {
            StoreFile::Log0 => self.log0.write_at(at, bytes),
            StoreFile::Log1 => self.log1.write_at(at, bytes),
            StoreFile::Snap0 => self.snap0.write_at(at, bytes),
            StoreFile::Snap1 => self.snap1.write_at(at, bytes),
            StoreFile::Hist => self.hist.write_at(at, bytes),
        }
    }

    /// Files of the same bytes with this room.
    pub fn copied(&self, alloc: Global, room: u64) -> Result<DiskFiles, AllocError>
        requires { FitsIn room self.now.image }
        ensures { IfOk result (λ made. made ≡ record { image = self.now.image; room = room }) }
    {
        let room = room as usize;
        Ok(DiskFiles {
            log0: self.log0.copied(alloc, room)?,
            log1: self.log1.copied(alloc, room)?,
            snap0: self.snap0.copied(alloc, room)?,
            snap1: self.snap1.copied(alloc, room)?,
            hist: self.hist.copied(alloc, room)?,
        })
    }

    /// Puts this byte wherever a write of `n` bytes within the room that isn't whole may leave any.
    pub fn fill_at(&mut self, file: StoreFile, at: u64, n: usize, fill: u8)
        requires { at + n ≤ self.old.room }
        ensures { self.new ≡ record self.old { image = with_file file (filled fill at n (of_file file self.old.image)) self.old.image } }
    {
        let at = at as usize;
        match file {
            StoreFile::Log0 => self.log0.fill_at(at, n, fill),
            StoreFile::Log1 => self.log1.fill_at(at, n, fill),
            StoreFile::Snap0 => self.snap0.fill_at(at, n, fill),
            StoreFile::Snap1 => self.snap1.fill_at(at, n, fill),
            StoreFile::Hist => self.hist.fill_at(at, n, fill),
        }
    }

    /// Takes over the bytes of one file of others, which is as long.
    pub fn take_file(&mut self, file: StoreFile, other: &DiskFiles)
        requires { length (of_file file other.now.image) ≡ length (of_file file self.old.image) }
        ensures { self.new ≡ record self.old { image = with_file file (of_file file other.now.image) self.old.image } }
    {
        match file {
            StoreFile::Log0 => self.log0.take_from(&other.log0),
            StoreFile::Log1 => self.log1.take_from(&other.log1),
            StoreFile::Snap0 => self.snap0.take_from(&other.snap0),
            StoreFile::Snap1 => self.snap1.take_from(&other.snap1),
            StoreFile::Hist => self.hist.take_from(&other.hist),
        }
    }

    /// Takes over the bytes of all files of others, which are as long.
    pub fn take_all(&mut self, other: &DiskFiles)
        requires { SameLengths other.now.image self.old.image }
        ensures { self.new ≡ record self.old { image = other.now.image } }
    {
        self.log0.take_from(&other.log0);
        self.log1.take_from(&other.log1);
        self.snap0.take_from(&other.snap0);
        self.snap1.take_from(&other.snap1);
        self.hist.take_from(&other.hist);
    }

    /// How many bytes the longest file has.
    pub fn longest(&self) -> usize
        ensures is { result ≡ longest self.now.image }
        ensures small { result < 2 ^ 63 }
    {
        self.log0
            .bytes()
            .len()
            .max(self.log1.bytes().len())
            .max(self.snap0.bytes().len())
            .max(self.snap1.bytes().len())
            .max(self.hist.bytes().len())
    }
}
