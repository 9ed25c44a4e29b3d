//! A disk that holds other bytes in each of its files.

use sf_outside::{Disk, Failed, MountFault, StoreFile};
use std::alloc::Global;
use std::fs::{self, File, Files};
use std::io;
use store_folder::Folder;

/// What is written into each file from its third byte on.
const FILES: [(StoreFile, [u8; 3]); 5] = [
    (StoreFile::Log0, [b'o', b'n', b'e']),
    (StoreFile::Log1, [b't', b'w', b'o']),
    (StoreFile::Snap0, [b's', b'i', b'x']),
    (StoreFile::Snap1, [b't', b'e', b'n']),
    (StoreFile::Hist, [b'r', b'e', b'd']),
];

/// Makes an empty folder of this name, in place of what an earlier run may have left.
pub fn make_empty<R: Files + AllocGlobal>(rt: &R, name: &str) -> io::Result<()> {
    if fs::exists(rt, name)? {
        fs::remove_dir_all(rt, name)?;
    }
    fs::create_dir(rt, name)
}

/// The folder of this name, mounted.
pub fn mounted<R: Files<File = File> + Drop>(
    alloc: Global,
    system: R,
    name: &str,
) -> Result<Folder<R>, MountFault> {
    let mut disk = Folder::new(alloc, system);
    disk.mount(alloc, name)?;
    Ok(disk)
}

/// Writes the bytes of each file, and then its second one.
pub fn fill(disk: &mut impl Disk) -> Result<(), Failed> {
    for (file, bytes) in FILES {
        disk.write_at(file, 2, &bytes)?;
        disk.write_at(file, 1, b"!")?;
        disk.sync(file)?;
    }
    Ok(())
}

/// Whether these bytes and no others stand from a place on to the end of a file.
pub fn stand(
    disk: &mut impl Disk,
    file: StoreFile,
    at: u64,
    wanted: &[u8],
) -> Result<bool, Failed> {
    let mut found = [b'?'; 8];
    let count = disk.read_at(file, at, &mut found)?;
    Ok(&found[..count] == wanted)
}

/// Whether a file has its bytes, behind a zero and the second one.
fn is_whole(disk: &mut impl Disk, file: StoreFile, bytes: [u8; 3]) -> Result<bool, Failed> {
    let whole = [0, b'!', bytes[0], bytes[1], bytes[2]];
    Ok(
        disk.len(file)? == 5
            && stand(disk, file, 0, &whole)?
            && stand(disk, file, 2, &bytes)?
            && stand(disk, file, 5, b"")?,
    )
}

/// Whether each file has its bytes.
pub fn is_filled(disk: &mut impl Disk) -> Result<bool, Failed> {
    for (file, bytes) in FILES {
        if !is_whole(disk, file, bytes)? {
            return Ok(false);
        }
    }
    Ok(true)
}
