//! The log of a disk in memory: each call that it had. It takes all its room when it is made.

ghost use Rattle.std.specs.Prelude.{◌≡◌, ◌+◌, ◌-◌, ◌^◌, ◌<◌, ◌≤◌, ◌++◌, ◌∷◌, [], length, take, nat_le, IfOk};
ghost use Rattle.sf_outside.specs.DiskCalls.{Quiet, Write, Sync, Mount};
ghost use Rattle.sf_outside.specs.LogState.{bytes_written};
ghost use Rattle.sf_outside.specs.CallLog.{calls_of, note_fits, noted_bytes};
ghost use Rattle.sf_outside.specs.Images.{image_after};

use crate::disk_files::DiskFiles;
use crate::memory_images::play;
use crate::store_disk::StoreFile;
use std::alloc::{AllocError, Global};
use std::marker::Model;

/// What is noted of a call. The bytes of a write stand with those of the others.
#[derive(Clone, Copy)]
pub enum Note {
    Quiet,
    Write(StoreFile, u64, usize),
    Sync(StoreFile),
    Mount,
}

/// The calls so far.
#[derive(Drop)]
pub struct CallLog {
    notes: Vec<Note>,
    bytes: Vec<u8>,
    limit: u64,
    room: u64,
}

impl Model for CallLog {
    ghost use Rattle.std.specs.Prelude.{◌≡◌, ◌≤◌, length, vec_capacity};
    ghost use Rattle.sf_outside.specs.LogState.{LogState};

    ghost Value = { LogState };

    ghost use Rattle.sf_outside.specs.CallLog.{calls_of, noted_bytes, notes_fit};

    ghost view = { λ log. record { calls = calls_of log.notes.items log.bytes.items; limit = log.limit; room = log.room } };

    ghost invariant = { λ log. (noted_bytes log.notes.items ≡ length log.bytes.items)
        × (log.limit ≤ vec_capacity log.notes) × (log.room ≤ vec_capacity log.bytes) × (length log.bytes.items ≤ log.room)
        × notes_fit log.room log.notes.items };
}

impl CallLog {
    /// A log of no calls.
    pub fn new(alloc: Global, limit: u64, room: u64) -> Result<CallLog, AllocError>
        ensures { IfOk result (λ made. made ≡ record { calls = []; limit = limit; room = room }) }
    {
        Ok(CallLog {
            notes: Vec::with_capacity(alloc, limit as usize)?,
            bytes: Vec::with_capacity(alloc, room as usize)?,
            limit,
            room,
        })
    }

    /// How many calls it has.
    pub fn len(&self) -> u64
        ensures { result ≡ length self.now.calls }
    {
        self.notes.len() as u64
    }

    /// How many bytes all its writes may have.
    pub fn room(&self) -> u64
        ensures { result ≡ self.now.room }
    {
        self.room
    }

    pub fn is_full(&self) -> bool
        ensures answer { result ≡ nat_le self.now.limit (length self.now.calls) }
        ensures few { self.now.limit < 2 ^ 64 }
    {
        self.limit <= self.notes.len() as u64
    }

    /// Whether the bytes of a write have room beside those of the others.
    pub fn has_room(&self, len: usize) -> bool
        ensures { result ≡ nat_le (bytes_written self.now.calls + len) self.now.room }
    {
        let used = self.bytes.len() as u64;
        used <= self.room && len as u64 <= self.room - used
    }

    /// Notes a call that changes nothing.
    pub fn note_quiet(&mut self)
        requires { length self.old.calls < self.old.limit }
        ensures { self.new ≡ record self.old { calls = self.old.calls ++ Quiet ∷ [] } }
    {
        self.note(Note::Quiet, &[]);
    }

    pub fn note_sync(&mut self, file: StoreFile)
        requires { length self.old.calls < self.old.limit }
        ensures { self.new ≡ record self.old { calls = self.old.calls ++ Sync file ∷ [] } }
    {
        self.note(Note::Sync(file), &[]);
    }

    pub fn note_mount(&mut self)
        requires { length self.old.calls < self.old.limit }
        ensures { self.new ≡ record self.old { calls = self.old.calls ++ Mount ∷ [] } }
    {
        self.note(Note::Mount, &[]);
    }

    pub fn note_write(&mut self, file: StoreFile, at: u64, bytes: &[u8])
        requires calls { length self.old.calls < self.old.limit }
        requires bytes { bytes_written self.old.calls + length bytes.now ≤ self.old.room }
        requires place { at + length bytes.now ≤ self.old.room }
        ensures { self.new ≡ record self.old { calls = self.old.calls ++ Write file at bytes.now ∷ [] } }
    {
        self.note(Note::Write(file, at, bytes.len()), bytes);
    }

    /// Notes a call with the bytes that it wrote.
    fn note(&mut self, note: Note, bytes: &[u8])
        requires calls { length self.old.calls < self.old.limit }
        requires room { length bytes.now ≤ self.old.room - bytes_written self.old.calls }
        requires bytes { noted_bytes (note ∷ []) ≡ length bytes.now }
        requires place { note_fits self.old.room note }
        ensures { self.new ≡ record self.old { calls = self.old.calls ++ calls_of (note ∷ []) bytes.now } }
    {
        self.notes.push(note).unwrap();
        self.bytes.extend_from_slice(bytes).unwrap();
    }

    /// Plays the first calls on files: behind them `now` is as a read gives it, and `left` as a crash leaves it, with `fill` wherever any byte may stand.
    /// Both are at first the files that the first call met.
    pub fn replay(&self, moment: u64, fill: u8, now: &mut DiskFiles, left: &mut DiskFiles)
        requires same { left.old.image ≡ now.old.image }
        requires now { now.old.room ≡ self.now.room }
        requires left { left.old.room ≡ self.now.room }
        ensures { left.new ≡ record left.old { image = image_after fill now.old.image (take moment self.now.calls) } }
    {
        let end = (moment as usize).min(self.notes.len());
        let notes = &self.notes[..end];
        let mut used = 0;
        for note in notes {
            used += play(*note, &self.bytes[used..], fill, now, left);
        }
    }
}
