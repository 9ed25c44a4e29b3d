//! The folder as a device, with a count of its faults.

ghost use Rattle.std.specs.Prelude.{◌≡◌, ◌≤◌, None};
ghost use Rattle.sf_outside.specs.Causes.{Rose, next_count};
ghost use Rattle.sf_outside.specs.DiskModel.{untold};
ghost use Rattle.sf_outside.specs.MountState.{mounts_of};

use crate::open_files::{OpenFiles, open_folder, paths_in};
use sf_outside::{Disk, Failed, MountBook, MountFault, StoreFile};
use std::alloc::Global;
use std::fs::{File, Files};

/// A folder of the system, whose files `log0`, `log1`, `snap0`, `snap1` and `hist` are those of a store. What they hold isn't told.
///
/// Two programs that work on one folder at a time would destroy it. So `log0` is locked as long as the folder is mounted, and a mount is refused where
/// someone else has it locked. The system gives the lock up with the file, at the latest where the process ends, however it does.
#[derive(Drop)]
pub struct Folder<R> {
    system: R,
    files: Option<OpenFiles<File>>,
    faults: u64,
    mounts: MountBook,
}

impl<R: Files<File = File>> Folder<R> {
    /// No folder is mounted yet.
    pub fn new(alloc: Global, system: R) -> Folder<R>
        ensures faults { result.faults ≡ 0 }
    {
        Folder {
            system,
            files: None,
            faults: 0,
            mounts: MountBook::new(alloc),
        }
    }

    /// Counts a fault.
    fn fault(&mut self) -> Failed
        ensures later { self.old.faults ≤ self.new.faults }
        ensures rose { Rose self.old.faults self.new.faults }
        ensures mounts { self.new.mounts ≡ self.old.mounts }
    {
        self.faults = self.faults.saturating_add(1);
        Failed
    }
}

impl<R: Files<File = File>> Disk for Folder<R> {
    ghost facts = { λ _. untold };

    ghost found = { λ _ _. None };

    ghost faults = { λ folder. folder.faults };

    ghost mounts = { λ folder. mounts_of folder.mounts };

    fn mount(&mut self, alloc: Global, name: &str) -> Result<(), MountFault> {
        let taken = String::from_str(alloc, name)?;
        let paths = paths_in(alloc, name)?;
        match open_folder(&self.system, name, &paths) {
            Ok(files) => {
                self.files = Some(files);
                self.mounts.succeed(taken, 0);
                Ok(())
            }
            Err(_) => {
                self.mounts.refuse(alloc, name)?;
                Err(MountFault::Failed)
            }
        }
    }

    fn len(&mut self, file: StoreFile) -> Result<u64, Failed> {
        match self.files.as_mut().map(|files| files.len(file)) {
            Some(Ok(length)) => Ok(length),
            _ => Err(self.fault()),
        }
    }

    fn read_at(&mut self, file: StoreFile, at: u64, buf: &mut [u8]) -> Result<usize, Failed> {
        if let Some(files) = &mut self.files {
            if let Ok(count) = files.read_at(file, at, buf) {
                return Ok(count);
            }
        }
        Err(self.fault())
    }

    fn write_at(&mut self, file: StoreFile, at: u64, bytes: &[u8]) -> Result<(), Failed> {
        if let Some(files) = &mut self.files {
            if files.write_at(file, at, bytes).is_ok() {
                return Ok(());
            }
        }
        Err(self.fault())
    }

    fn sync(&mut self, file: StoreFile) -> Result<(), Failed> {
        if let Some(files) = &mut self.files {
            if files.sync(file).is_ok() {
                return Ok(());
            }
        }
        Err(self.fault())
    }
}
