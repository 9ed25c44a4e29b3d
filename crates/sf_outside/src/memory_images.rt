//! The image of a disk in memory at a moment: the calls that it noted are played on its files as a read gives them and as a crash leaves them.

ghost use Rattle.std.specs.Prelude.{◌≡◌, ◌≤◌, ◌∷◌, [], length, take, IfOk};
ghost use Rattle.sf_outside.specs.CallLog.{call_of, note_fits, noted_bytes};
ghost use Rattle.sf_outside.specs.DiskCalls.{facts_after};
ghost use Rattle.sf_outside.specs.Images.{begun_with, image_after, IsLongest, now_after, left_after, SameLengths};

use crate::call_log::{CallLog, Note};
use crate::calls::Calls;
use crate::disk_files::DiskFiles;
use crate::memory_disk::MemDisk;
use crate::mount_book::MountBook;
use std::alloc::{AllocError, Global};

/// How many bytes more than the longest file of an image the disk has room for that begins with it.
const SPARE_BYTES: u64 = 1_048_576;

/// How many calls that disk takes.
const SPARE_CALLS: u64 = 10_000;

impl MemDisk {
    /// A disk that begins as a crash may leave this one after the call of this number: `fill` stands wherever any byte may stand, and each file is as
    /// long as it may be. It takes 10,000 calls, and has room for 1,048,576 bytes more than the longest file has.
    pub fn image(&self, alloc: Global, moment: u64, fill: u8) -> Result<MemDisk, AllocError>
        requires { moment ≤ self.now.made }
        ensures made { IfOk result (λ made. made ≡ begun_with 1048576 10000 (image_after fill self.now.start (take moment self.now.calls))) }
        ensures left { IfOk result (λ made. (facts_after self.now.start (take moment self.now.calls)).may_leave made.start) }
        ensures longest { IfOk result (λ made. IsLongest (facts_after self.now.start (take moment self.now.calls)) made.start) }
    {
        let left = self.left_at(alloc, moment, fill)?;
        MemDisk::begun(alloc, left)
    }

    /// The files that such a crash leaves.
    fn left_at(&self, alloc: Global, moment: u64, fill: u8) -> Result<DiskFiles, AllocError>
        ensures { IfOk result (λ left. left ≡ record { image = image_after fill self.now.start (take moment self.now.calls); room = self.now.room }) }
    {
        let mut now = self.start.copied(alloc, self.log.room())?;
        let mut left = self.start.copied(alloc, self.log.room())?;
        self.log.replay(moment, fill, &mut now, &mut left);
        Ok(left)
    }

    /// A disk that begins with these files.
    fn begun(alloc: Global, start: DiskFiles) -> Result<MemDisk, AllocError>
        ensures { IfOk result (λ made. made ≡ begun_with 1048576 10000 start.image) }
    {
        let room = start.longest() as u64 + SPARE_BYTES;
        Ok(MemDisk {
            files: start.copied(alloc, room)?,
            start,
            log: CallLog::new(alloc, SPARE_CALLS, room)?,
            calls: Calls::new(alloc, &[])?,
            faults: 0,
            mounts: MountBook::new(alloc),
        })
    }
}

/// Plays a call, a write with the first of these bytes, and gives how many of them it took.
pub fn play(note: Note, bytes: &[u8], fill: u8, now: &mut DiskFiles, left: &mut DiskFiles) -> usize
    requires bytes { noted_bytes (note ∷ []) ≤ length bytes.now }
    requires now { note_fits now.old.room note }
    requires left { note_fits left.old.room note }
    requires same { SameLengths now.old.image left.old.image }
    ensures used { result ≡ noted_bytes (note ∷ []) }
    ensures now { now.new ≡ record now.old { image = now_after (call_of note bytes.now) now.old.image } }
    ensures left { left.new ≡ record left.old { image = left_after fill (call_of note bytes.now) now.old.image left.old.image } }
{
    match note {
        Note::Quiet => 0,
        Note::Write(file, at, len) => {
            now.write_at(file, at, &bytes[..len]);
            left.fill_at(file, at, len, fill);
            len
        }
        Note::Sync(file) => {
            left.take_file(file, now);
            0
        }
        Note::Mount => {
            left.take_all(now);
            0
        }
    }
}
