//! Bytes that go into a file a page at a time, so that what is written needn't stand in memory.

ghost use Rattle.std.specs.Prelude.{◌≡◌, ◌+◌, ◌^◌, ◌≤◌, ◌++◌, [], length, OnOk, OnErr};
ghost use Rattle.sf_outside.specs.Causes.{HasCause};
ghost use Rattle.sf_outside.specs.DiskModel.{LeavesOnly, SeenWritten, IsDurable};
ghost use Rattle.sf_outside.specs.ImageSteps.{ComesBy, OthersStayDurable};
ghost use Rattle.snapshot_store.specs.PageSteps.{Puts, Stops, CountsStay, CountsRise};
ghost use Rattle.snapshot_store.specs.PageLaws.{puts_start, puts_then, puts_stop, counts_start, counts_then, counts_stop};
ghost use Rattle.snapshot_store.specs.SlotSteps.{KeepsFront};

use sf_bytes::{Out, Spelled};
use sf_outside::{Disk, Failed, StoreFile};
use std::marker::Model;

/// No write to a store ends past this place.
const END: u64 = 1 << 62;

/// How many bytes are held until they are written.
const PAGE: usize = 4096;

/// The end of what was put into a file. Past the last place of a store it counts on, and writes nothing.
#[derive(Drop)]
pub(crate) struct Pages {
    file: StoreFile,
    at: u64,
    page: [u8; 4096],
    len: usize,
}

impl Model for Pages {
    ghost use Rattle.std.specs.Prelude.{◌≤◌, take};
    ghost use Rattle.snapshot_store.specs.PageSteps.{PageState};

    ghost Value = { PageState };

    ghost view = { λ out. record { file = out.file; at = out.at; held = take out.len out.page } };

    ghost invariant = { λ out. (out.len ≤ 4096) × (out.len ≤ out.at) };
}

impl Pages {
    /// At this place of a file, with nothing held.
    fn new(file: StoreFile, at: u64) -> Pages
        ensures { result ≡ record { file = file; at = at; held = [] } }
    {
        Pages {
            file,
            at,
            page: [0; 4096],
            len: 0,
        }
    }

    /// Writes what is held.
    fn flush<D: Disk>(&mut self, disk: &mut D) -> Result<(), Failed>
        requires { self.old.at ≤ 2 ^ 62 }
        ensures all { OnOk result (Puts self.old (D.facts disk.old) self.new (D.facts disk.new) []) }
        ensures now { OnOk result (self.new ≡ record self.old { held = [] }) }
        ensures part { OnErr result (Stops self.old (D.facts disk.old) (D.facts disk.new)) }
        ensures cause { HasCause (D.faults disk.old) (D.faults disk.new) result }
        ensures mounts { D.mounts disk.new ≡ D.mounts disk.old }
    {
        let place = self.at - self.len as u64;
        disk.write_at(self.file, place, &self.page[..self.len])?;
        self.len = 0;
        Ok(())
    }

    /// How many bytes more are held before the page is full.
    fn room(&self) -> usize
        ensures { length self.now.held + result ≡ 4096 }
    {
        PAGE - self.len
    }

    /// Holds bytes for which there is room.
    fn hold(&mut self, bytes: &[u8])
        requires room { length self.old.held + length bytes.now ≤ 4096 }
        requires end { self.old.at + length bytes.now ≤ 2 ^ 62 }
        ensures { self.new ≡ record self.old { at = self.old.at + length bytes.now; held = self.old.held ++ bytes.now } }
    {
        let end = self.len + bytes.len();
        self.page[self.len..end].copy_from_slice(bytes);
        self.len = end;
        self.at += bytes.len() as u64;
    }

    /// Puts bytes where none is held. Those that are longer than a page go to the disk as they are.
    fn put_flushed<D: Disk>(&mut self, disk: &mut D, bytes: &[u8]) -> Result<(), Failed>
        requires none { self.old.held ≡ [] }
        requires end { self.old.at + length bytes.now ≤ 2 ^ 62 }
        ensures all { OnOk result (Puts self.old (D.facts disk.old) self.new (D.facts disk.new) bytes.now) }
        ensures part { OnErr result (Stops self.old (D.facts disk.old) (D.facts disk.new)) }
        ensures cause { HasCause (D.faults disk.old) (D.faults disk.new) result }
        ensures mounts { D.mounts disk.new ≡ D.mounts disk.old }
    {
        if bytes.len() <= self.room() {
            self.hold(bytes);
            return Ok(());
        }
        disk.write_at(self.file, self.at, bytes)?;
        self.at += bytes.len() as u64;
        Ok(())
    }

    /// Puts bytes behind those that were put.
    fn put_next<D: Disk>(&mut self, disk: &mut D, bytes: &[u8]) -> Result<(), Failed>
        ensures all { OnOk result (Puts self.old (D.facts disk.old) self.new (D.facts disk.new) bytes.now) }
        ensures part { OnErr result (Stops self.old (D.facts disk.old) (D.facts disk.new)) }
        ensures cause { HasCause (D.faults disk.old) (D.faults disk.new) result }
        ensures mounts { D.mounts disk.new ≡ D.mounts disk.old }
    {
        let end = self.at.saturating_add(bytes.len() as u64);
        if end > END {
            self.at = end;
            return Ok(());
        }
        if bytes.len() <= self.room() {
            self.hold(bytes);
            return Ok(());
        }
        self.flush(disk)?;
        self.put_flushed(disk, bytes)
    }
}

impl<D: Disk> Out<D> for Pages {
    type Stop = Failed;

    ghost puts = { λ a d b e bytes. Puts a (D.facts d) b (D.facts e) bytes × CountsStay (D.faults d) (D.mounts d) (D.faults e) (D.mounts e) };

    ghost stops = { λ a d b e. Stops a (D.facts d) (D.facts e) × CountsRise (D.faults d) (D.mounts d) (D.faults e) (D.mounts e) };

    fn put(&mut self, disk: &mut D, bytes: &[u8]) -> Result<(), Failed>
        ensures all { OnOk result (Puts self.old (D.facts disk.old) self.new (D.facts disk.new) bytes.now
            × CountsStay (D.faults disk.old) (D.mounts disk.old) (D.faults disk.new) (D.mounts disk.new)) }
        ensures part { OnErr result (Stops self.old (D.facts disk.old) (D.facts disk.new)
            × CountsRise (D.faults disk.old) (D.mounts disk.old) (D.faults disk.new) (D.mounts disk.new)) }
    {
        self.put_next(disk, bytes)
    }

    ghost start = { λ a d. (puts_start a (D.facts d), counts_start (D.faults d) (D.mounts d)) };

    ghost next = { λ a d b e c f x y first second. (
      puts_then a (D.facts d) b (D.facts e) x first.0 c (D.facts f) y second.0,
      counts_then (D.faults d) (D.mounts d) (D.faults e) (D.mounts e) (D.faults f) (D.mounts f) first.1 second.1,
    ) };

    ghost last = { λ a d b e c f x first second. (
      puts_stop a (D.facts d) b (D.facts e) x first.0 (D.facts f) second.0,
      counts_stop (D.faults d) (D.mounts d) (D.faults e) (D.mounts e) (D.faults f) (D.mounts f) first.1 second.1,
    ) };
}

/// Writes the bytes of a thing from a place of a file on as it puts them, and makes them safe. It takes no memory but a page on the stack.
///
/// After a fault they may be there, in part or not at all.
pub(crate) fn put_spelled<D: Disk, B: Spelled>(
    disk: &mut D,
    file: StoreFile,
    at: u64,
    body: &B,
) -> Result<(), Failed>
    requires spelt { B.is_spelt body.now }
    requires end { at + length (B.bytes_of body.now) ≤ 2 ^ 62 }
    ensures durable { OnOk result (IsDurable file (D.facts disk.new)) }
    ensures seen { OnOk result (SeenWritten file at (B.bytes_of body.now) (D.facts disk.old) (D.facts disk.new)) }
    ensures moments { LeavesOnly (D.facts disk.old) (D.facts disk.new) (ComesBy file (KeepsFront at) (D.facts disk.old)) }
    ensures others { OthersStayDurable file (D.facts disk.old) (D.facts disk.new) }
    ensures cause { HasCause (D.faults disk.old) (D.faults disk.new) result }
    ensures mounts { D.mounts disk.new ≡ D.mounts disk.old }
{
    let mut out = Pages::new(file, at);
    body.put(&mut out, disk)?;
    out.flush(disk)?;
    disk.sync(file)
}
