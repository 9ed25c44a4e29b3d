//! What a crash leaves of a disk in memory, by the number of calls before it.

use sf_outside::{Disk, Failed, MemDisk, StoreFile};
use std::alloc::Global;
use std::test::Fail;
use test_support::{Case, hold_cases};
use value_texts::digits_of;

/// Makes the calls behind the mount, of which the fifth is to fail, and tells whether each answers so.
fn goes_by_plan(disk: &mut MemDisk) -> bool {
    disk.write_at(StoreFile::Log0, 0, b"abcd").is_ok()
        && disk.sync(StoreFile::Log0).is_ok()
        && disk.write_at(StoreFile::Log0, 2, b"XYZ").is_ok()
        && disk.write_at(StoreFile::Snap0, 0, b"q").is_ok()
        && disk.sync(StoreFile::Snap0).is_err()
        && disk.sync(StoreFile::Snap0).is_ok()
}

/// A disk that had these calls behind its mount.
fn called_disk(alloc: Global) -> Result<MemDisk, Fail> {
    let mut disk = MemDisk::new(alloc, 8, 7, &[6])?;
    if disk.mount(alloc, "s").is_err() || !goes_by_plan(&mut disk) {
        return Err(Fail::from("the calls answer otherwise"));
    }
    Ok(disk)
}

/// The bytes of a file.
fn file_told(alloc: Global, disk: &mut MemDisk, file: StoreFile) -> Result<String, Fail> {
    let mut buf = [0; 8];
    match disk.read_at(file, 0, &mut buf) {
        Ok(count) => Ok(digits_of(alloc, &buf[..count])?),
        Err(Failed) => Err(Fail::from("a read failed")),
    }
}

/// The bytes of a log and of a slot.
fn files_told(alloc: Global, disk: &mut MemDisk) -> Result<String, Fail> {
    let log = file_told(alloc, disk, StoreFile::Log0)?;
    let slot = file_told(alloc, disk, StoreFile::Snap0)?;
    Ok(format!(in alloc; "{log}, {slot}")?)
}

/// The same of what a crash leaves behind the call of this number, where this byte stands for any.
fn image_told(alloc: Global, (moment, fill): &(u64, u8)) -> Result<String, Fail> {
    let disk = called_disk(alloc)?;
    if *moment > disk.calls() {
        return Err(Fail::from("there was no such call"));
    }
    let mut image = disk.image(alloc, *moment, *fill)?;
    drop(disk);
    let told = files_told(alloc, &mut image);
    drop(image);
    told
}

const IMAGES: [Case<'static, (u64, u8)>; 8] = [
    ("nothing is written", (1, 0xa5), ", "),
    ("any bytes of a write", (2, 0xa5), "a5a5a5a5, "),
    ("other bytes of it", (2, 0), "00000000, "),
    ("a synced write", (3, 0xa5), "61626364, "),
    ("a write over its end", (4, 0xa5), "6162a5a5a5, "),
    ("a write to another file", (5, 0xa5), "6162a5a5a5, a5"),
    ("a sync that failed", (6, 0xa5), "6162a5a5a5, a5"),
    ("a sync of the other file", (7, 0xa5), "6162a5a5a5, 71"),
];

#[test]
fn a_crash_leaves_what_was_synced_and_any_bytes_of_later_writes(
    rt: HostRuntime,
) -> Result<(), Fail> {
    hold_cases(rt.alloc(), &IMAGES, image_told)
}
