//! Mounts that are refused, and those that succeed behind one.

use crate::filled::{fill, is_filled, make_empty, mounted};
use sf_outside::{Disk, Failed, MountFault, StoreFile};
use std::fs::{self, Files};
use std::test::Fail;
use store_folder::Folder;

#[test]
fn folder_that_is_missing_is_refused(rt: HostRuntime) -> Result<(), Fail> {
    fs::write(&rt, "a_file", "")?;
    for name in ["missing", "a_file", "nul\0"] {
        let mut disk = Folder::new(rt.alloc(), rt);
        assert_eq!(rt;
            disk.mount(rt.alloc(), name),
            Err(MountFault::Failed),
            "{name}"
        );
        assert_eq!(rt; disk.len(StoreFile::Log0), Err(Failed), "{name}");
    }
    fs::remove_file(&rt, "a_file")?;
    Ok(())
}

/// A file whose bytes can't be made safe: the system has none of them on a medium.
#[test]
fn folder_that_cannot_be_synced_is_refused(rt: HostRuntime) -> Result<(), Fail> {
    for (name, file) in [
        ("unsafe0", "unsafe0/log0"),
        ("unsafe1", "unsafe1/log1"),
        ("unsafe2", "unsafe2/snap0"),
        ("unsafe3", "unsafe3/snap1"),
        ("unsafe4", "unsafe4/hist"),
    ] {
        make_empty(&rt, name)?;
        rt.symlink("/dev/null", file)?;
        let mut disk = Folder::new(rt.alloc(), rt);
        assert_eq!(rt;
            disk.mount(rt.alloc(), name),
            Err(MountFault::Failed),
            "{name}"
        );
        fs::remove_dir_all(&rt, name)?;
    }
    Ok(())
}

#[test]
fn folder_that_is_mounted_is_refused_until_it_is_given_up(rt: HostRuntime) -> Result<(), Fail> {
    make_empty(&rt, "shared")?;
    let mut first = mounted(rt.alloc(), rt, "shared")?;
    let mut second = Folder::new(rt.alloc(), rt);
    assert_eq!(rt; second.mount(rt.alloc(), "shared"), Err(MountFault::Failed));
    fill(&mut first)?;
    assert_eq!(rt; second.mount(rt.alloc(), "shared"), Err(MountFault::Failed));
    assert!(rt; is_filled(&mut first)?);
    drop(first);
    assert_eq!(rt; second.mount(rt.alloc(), "shared"), Ok(()));
    assert!(rt; is_filled(&mut second)?);
    fs::remove_dir_all(&rt, "shared")?;
    Ok(())
}
