//! A disk in memory. It notes each call, and so tells what a crash at each moment may have left.

ghost use Rattle.std.specs.Prelude.{◌≡◌, ◌+◌, ◌^◌, ◌<◌, ◌≤◌, ◌||◌, ◌⊎◌, ℕ, List, None, Some, [], length, is_err, true, false, not, nat_lt, if◌then◌else◌, IfOk, IfSome, OnOk, OnErr, IsErrOf};
ghost use Rattle.std.specs.Io.{ReadsAtMost};
ghost use Rattle.sf_outside.specs.Bytes.{CopiedAll};
ghost use Rattle.sf_outside.specs.Causes.{HasCause, Rose, next_count};
ghost use Rattle.sf_outside.specs.DiskModel.{of_file, LeavesOnly, Stays, LeavesNoMore, SeenWritten, SeenTorn, IsDurable, IsClean, mounted, NotMounted};
ghost use Rattle.sf_outside.specs.ImageSteps.{ComesTorn};
ghost use Rattle.sf_outside.specs.DiskCalls.{Quiet, Write, Sync, Mount, no_bytes};
ghost use Rattle.sf_outside.specs.DiskState.{facts_of, NotesAll, fails_next, after_done, after_quiet, after_fault};
ghost use Rattle.sf_outside.specs.LogState.{bytes_written};
ghost use Rattle.sf_outside.specs.MountState.{mounts_of, refusals_of, with_mount, with_refusal};

use crate::call_log::CallLog;
use crate::calls::Calls;
use crate::copies::copy_at;
use crate::devices::Failed;
use crate::disk_files::DiskFiles;
use crate::mount_book::MountBook;
use crate::store_disk::{Disk, MountFault, StoreFile};
use std::alloc::{AllocError, Global};
use std::marker::Model;

/// A disk whose files are in memory. It keeps them when it is mounted.
#[derive(Drop)]
pub struct MemDisk {
    pub(crate) start: DiskFiles,
    pub(crate) files: DiskFiles,
    pub(crate) log: CallLog,
    pub(crate) calls: Calls,
    pub(crate) faults: u64,
    pub(crate) mounts: MountBook,
}

impl Model for MemDisk {
    ghost use Rattle.std.specs.Prelude.{◌≡◌, length, min};
    ghost use Rattle.sf_outside.specs.DiskState.{DiskState};
    ghost use Rattle.sf_outside.specs.DiskCalls.{bytes_now, files_after};

    ghost Value = { DiskState };

    ghost view = { λ disk. record {
      start = disk.start.image;
      calls = disk.log.calls;
      limit = disk.log.limit;
      room = disk.log.room;
      fail_at = disk.calls.fail_at;
      made = disk.calls.made;
      faults = disk.faults;
      mounts = disk.mounts;
    } };

    ghost use Rattle.sf_outside.specs.DiskFiles.{FitsIn};

    ghost invariant = { λ disk. (disk.files.image ≡ bytes_now (files_after disk.start.image disk.log.calls)) × (disk.files.room ≡ disk.log.room)
        × (length disk.log.calls ≡ min disk.calls.made disk.log.limit) × FitsIn disk.log.room disk.start.image };
}

impl MemDisk {
    /// A disk with empty files. Each file may grow to `room` bytes, and all writes together may have as
    /// many. It takes `calls` calls, of which those fail whose numbers, from 1, `fail_at` lists.
    pub fn new(alloc: Global, room: u64, calls: u64, fail_at: &[u64]) -> Result<MemDisk, AllocError>
        ensures { IfOk result (λ made. made ≡ record {
          start = no_bytes;
          calls = [];
          limit = calls;
          room = room;
          fail_at = fail_at.now;
          made = 0;
          faults = 0;
          mounts = record { count = 0; name = None; moment = 0; refusals = [] };
        }) }
    {
        Ok(MemDisk {
            start: DiskFiles::new(alloc, 0)?,
            files: DiskFiles::new(alloc, room)?,
            log: CallLog::new(alloc, calls, room)?,
            calls: Calls::new(alloc, fail_at)?,
            faults: 0,
            mounts: MountBook::new(alloc),
        })
    }

    /// How many calls were made, as far as the count reaches. Each is noted, as long as there is room.
    pub fn calls(&self) -> u64
        ensures made { result ≡ self.now.made }
        ensures noted { NotesAll self.now }
    {
        self.calls.made()
    }

    /// Whether the next call fails whatever it is.
    fn fails_next(&self) -> bool
        ensures answer { result ≡ fails_next self.now }
        ensures few { self.now.limit < 2 ^ 64 }
    {
        let is_full = self.log.is_full();
        is_full || self.calls.is_next_due()
    }

    /// Counts a call that does nothing, and notes it where there is room.
    fn pass(&mut self)
        ensures { self.new ≡ after_quiet self.old }
    {
        self.calls.count();
        if !self.log.is_full() {
            self.log.note_quiet();
        }
    }

    /// Ends a call that fails.
    fn fault(&mut self) -> Failed
        ensures later { self.old.faults ≤ self.new.faults }
        ensures counted { self.new ≡ after_fault self.old }
    {
        self.pass();
        self.faults = self.faults.saturating_add(1);
        Failed
    }

    /// Whether a write has room in its file and in the log.
    fn has_room(&self, at: u64, len: usize) -> bool
        requires { at + len ≤ 2 ^ 62 }
        ensures { result ≡ not (nat_lt self.now.room (at + len) || nat_lt self.now.room (bytes_written self.now.calls + len)) }
    {
        at + len as u64 <= self.log.room() && self.log.has_room(len)
    }
}

impl Disk for MemDisk {
    ghost facts = { facts_of };

    ghost found = { λ disk name. (facts_of disk).seen };

    ghost faults = { λ disk. disk.faults };

    ghost mounts = { λ disk. mounts_of disk.mounts };

    /// Keeps the files as they are.
    fn mount(&mut self, alloc: Global, name: &str) -> Result<(), MountFault>
        ensures clean { OnOk result (IsClean (facts_of self.new)) }
        ensures found { OnOk result ((facts_of self.new).seen ≡ (facts_of self.old).seen) }
        ensures ok { OnOk result (mounts_of self.new.mounts ≡ mounted (mounts_of self.old.mounts) name.now (length self.new.calls)) }
        ensures err { OnErr result (NotMounted name.now (mounts_of self.old.mounts) (mounts_of self.new.mounts)) }
        ensures kept { OnErr result (Stays (facts_of self.old) (facts_of self.new)) }
        ensures same { OnErr result ((other : List ℕ) → (facts_of self.new).seen ≡ (facts_of self.old).seen) }
        ensures later { length self.old.calls ≤ length self.new.calls }
        ensures cause { IsErrOf result MountFault.Failed → Rose (refusals_of self.old.mounts.refusals name.now)
            (refusals_of self.new.mounts.refusals name.now) }
        ensures faults { self.new.faults ≡ self.old.faults }
        ensures succeeds { OnOk result (fails_next self.old ≡ false) }
        ensures fails { IsErrOf result MountFault.Failed → fails_next self.old ≡ true }
        ensures exact { OnOk result (self.new ≡ record (after_done Mount self.old) { mounts = with_mount self.old.mounts name.now (length self.new.calls) }) }
        ensures refused { IsErrOf result MountFault.Failed → self.new ≡ record (after_quiet self.old) { mounts = with_refusal self.old.mounts name.now } }
        ensures no_memory { IsErrOf result MountFault.NoMemory → (self.new ≡ self.old) ⊎ (self.new ≡ after_quiet self.old) }
        ensures settings { (self.new.limit ≡ self.old.limit) × (self.new.room ≡ self.old.room) × (self.new.fail_at ≡ self.old.fail_at) }
    {
        let taken = String::from_str(alloc, name)?;
        if self.fails_next() {
            self.pass();
            self.mounts.refuse(alloc, name)?;
            return Err(MountFault::Failed);
        }
        self.calls.count();
        self.log.note_mount();
        let moment = self.log.len();
        self.mounts.succeed(taken, moment);
        Ok(())
    }

    fn len(&mut self, file: StoreFile) -> Result<u64, Failed>
        ensures value { IfOk result (λ n. IfSome (facts_of self.old).seen (λ now. n ≡ length (of_file file now))) }
        ensures stays { Stays (facts_of self.old) (facts_of self.new) }
        ensures cause { HasCause self.old.faults self.new.faults result }
        ensures mounts { mounts_of self.new.mounts ≡ mounts_of self.old.mounts }
        ensures fails { is_err result ≡ fails_next self.old }
        ensures exact { self.new ≡ (if is_err result then after_fault self.old else after_done Quiet self.old) }
    {
        if self.fails_next() {
            return Err(self.fault());
        }
        self.calls.count();
        self.log.note_quiet();
        Ok(self.files.bytes(file).len() as u64)
    }

    fn read_at(&mut self, file: StoreFile, at: u64, buf: &mut [u8]) -> Result<usize, Failed>
        ensures bound { ReadsAtMost result buf.new }
        ensures bytes { IfOk result (λ n. IfSome (facts_of self.old).seen (λ now. CopiedAll (of_file file now) at n buf.new)) }
        ensures stays { Stays (facts_of self.old) (facts_of self.new) }
        ensures cause { HasCause self.old.faults self.new.faults result }
        ensures mounts { mounts_of self.new.mounts ≡ mounts_of self.old.mounts }
        ensures fails { is_err result ≡ fails_next self.old }
        ensures exact { self.new ≡ (if is_err result then after_fault self.old else after_done Quiet self.old) }
    {
        if self.fails_next() {
            return Err(self.fault());
        }
        self.calls.count();
        self.log.note_quiet();
        Ok(copy_at(self.files.bytes(file), at, buf))
    }

    fn write_at(&mut self, file: StoreFile, at: u64, bytes: &[u8]) -> Result<(), Failed>
        requires { at + length bytes.now ≤ 2 ^ 62 }
        ensures ok { OnOk result (SeenWritten file at bytes.now (facts_of self.old) (facts_of self.new)) }
        ensures err { OnErr result (SeenTorn file at (length bytes.now) (facts_of self.old) (facts_of self.new)) }
        ensures moments { LeavesOnly (facts_of self.old) (facts_of self.new)
            (ComesTorn file at (length bytes.now) (facts_of self.old)) }
        ensures cause { HasCause self.old.faults self.new.faults result }
        ensures mounts { mounts_of self.new.mounts ≡ mounts_of self.old.mounts }
        ensures fails { is_err result ≡ (fails_next self.old || nat_lt self.old.room (at + length bytes.now) || nat_lt self.old.room
            (bytes_written self.old.calls + length bytes.now)) }
        ensures exact { self.new ≡ (if is_err result then after_fault self.old else after_done (Write file at bytes.now) self.old) }
    {
        if self.fails_next() || !self.has_room(at, bytes.len()) {
            return Err(self.fault());
        }
        self.calls.count();
        self.files.write_at(file, at, bytes);
        self.log.note_write(file, at, bytes);
        Ok(())
    }

    fn sync(&mut self, file: StoreFile) -> Result<(), Failed>
        ensures durable { OnOk result (IsDurable file (facts_of self.new)) }
        ensures stays { Stays (facts_of self.old) (facts_of self.new) }
        ensures no_more { LeavesNoMore (facts_of self.old) (facts_of self.new) }
        ensures cause { HasCause self.old.faults self.new.faults result }
        ensures mounts { mounts_of self.new.mounts ≡ mounts_of self.old.mounts }
        ensures fails { is_err result ≡ fails_next self.old }
        ensures exact { self.new ≡ (if is_err result then after_fault self.old else after_done (Sync file) self.old) }
    {
        if self.fails_next() {
            return Err(self.fault());
        }
        self.calls.count();
        self.log.note_sync(file);
        Ok(())
    }
}
