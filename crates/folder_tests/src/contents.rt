//! What is written into a folder is there.

use crate::filled::{fill, is_filled, make_empty, mounted, stand};
use sf_outside::{Disk, StoreFile};
use std::fs;
use std::test::Fail;

#[test]
fn what_is_written_is_read_back(rt: HostRuntime) -> Result<(), Fail> {
    make_empty(&rt, "read_back")?;
    let mut disk = mounted(rt.alloc(), rt, "read_back")?;
    assert_eq!(rt; disk.len(StoreFile::Log0)?, 0);
    fill(&mut disk)?;
    assert!(rt; is_filled(&mut disk)?);
    fs::remove_dir_all(&rt, "read_back")?;
    Ok(())
}

#[test]
fn files_of_the_folder_have_the_bytes(rt: HostRuntime) -> Result<(), Fail> {
    make_empty(&rt, "named")?;
    let mut disk = mounted(rt.alloc(), rt, "named")?;
    fill(&mut disk)?;
    for (path, bytes) in [
        ("named/log0", b"\0!one"),
        ("named/log1", b"\0!two"),
        ("named/snap0", b"\0!six"),
        ("named/snap1", b"\0!ten"),
        ("named/hist", b"\0!red"),
    ] {
        let found = fs::read(&rt, path)?;
        assert_eq!(rt; found.as_slice(), bytes.as_slice(), "{path}");
    }
    fs::remove_dir_all(&rt, "named")?;
    Ok(())
}

#[test]
fn another_mount_finds_what_was_written(rt: HostRuntime) -> Result<(), Fail> {
    make_empty(&rt, "kept")?;
    let mut disk = mounted(rt.alloc(), rt, "kept")?;
    fill(&mut disk)?;
    drop(disk);
    let mut again = mounted(rt.alloc(), rt, "kept")?;
    assert!(rt; is_filled(&mut again)?);
    fs::remove_dir_all(&rt, "kept")?;
    Ok(())
}

#[test]
fn file_that_is_there_keeps_its_bytes(rt: HostRuntime) -> Result<(), Fail> {
    make_empty(&rt, "there")?;
    fs::write(&rt, "there/snap1", "before")?;
    let mut disk = mounted(rt.alloc(), rt, "there")?;
    assert!(rt; stand(&mut disk, StoreFile::Snap1, 0, b"before")?);
    assert!(rt; stand(&mut disk, StoreFile::Snap0, 0, b"")?);
    fs::remove_dir_all(&rt, "there")?;
    Ok(())
}
