//! The files of a store, open for reading and writing, and their paths in a folder.

ghost use Rattle.std.specs.Prelude.{◌≡◌, ◌++◌, codes, string_bytes, IfOk};
ghost use Rattle.std.specs.Io.{ReadsAtMost};

use crate::file_access::{file_length, read_whole_at, write_whole_at};
use sf_outside::StoreFile;
use std::alloc::{AllocError, Global};
use std::fs::{self, File, Files, OpenFile, OpenOptions};
use std::io::{self, Read, Seek, Write};

/// The files `log0`, `log1`, `snap0`, `snap1` and `hist` of a folder.
#[derive(Drop)]
pub(crate) struct OpenFiles<F> {
    pub(crate) log0: F,
    pub(crate) log1: F,
    pub(crate) snap0: F,
    pub(crate) snap1: F,
    pub(crate) hist: F,
}

impl<F: Read + Write + Seek + OpenFile + Drop> OpenFiles<F> {
    pub(crate) fn len(&mut self, file: StoreFile) -> io::Result<u64> {
        match file {
            StoreFile::Log0 => file_length(&mut self.log0),
            StoreFile::Log1 => file_length(&mut self.log1),
            StoreFile::Snap0 => file_length(&mut self.snap0),
            StoreFile::Snap1 => file_length(&mut self.snap1),
            StoreFile::Hist => file_length(&mut self.hist),
        }
    }

    pub(crate) fn read_at(&mut self, file: StoreFile, at: u64, buf: &mut [u8]) -> io::Result<usize>
        ensures bound { ReadsAtMost result buf.new }
    {
        match file {
            StoreFile::Log0 => read_whole_at(&mut self.log0, at, buf),
            StoreFile::Log1 => read_whole_at(&mut self.log1, at, buf),
            StoreFile::Snap0 => read_whole_at(&mut self.snap0, at, buf),
            StoreFile::Snap1 => read_whole_at(&mut self.snap1, at, buf),
            StoreFile::Hist => read_whole_at(&mut self.hist, at, buf),
        }
    }

    pub(crate) fn write_at(&mut self, file: StoreFile, at: u64, bytes: &[u8]) -> io::Result<()> {
        match file {
            StoreFile::Log0 => write_whole_at(&mut self.log0, at, bytes),
            StoreFile::Log1 => write_whole_at(&mut self.log1, at, bytes),
            StoreFile::Snap0 => write_whole_at(&mut self.snap0, at, bytes),
            StoreFile::Snap1 => write_whole_at(&mut self.snap1, at, bytes),
            StoreFile::Hist => write_whole_at(&mut self.hist, at, bytes),
        }
    }

    /// Data and length of a file are on the medium when it returns.
    pub(crate) fn sync(&mut self, file: StoreFile) -> io::Result<()> {
        match file {
            StoreFile::Log0 => self.log0.sync_all(),
            StoreFile::Log1 => self.log1.sync_all(),
            StoreFile::Snap0 => self.snap0.sync_all(),
            StoreFile::Snap1 => self.snap1.sync_all(),
            StoreFile::Hist => self.hist.sync_all(),
        }
    }
}

/// The paths of the files of a folder.
#[derive(Drop)]
pub(crate) struct FilePaths {
    log0: String,
    log1: String,
    snap0: String,
    snap1: String,
    hist: String,
}

/// Makes the paths of the files of the folder of this name. What opens them takes no memory of its own.
pub(crate) fn paths_in(alloc: Global, folder: &str) -> Result<FilePaths, AllocError> {
    Ok(FilePaths {
        log0: path_in(alloc, folder, "log0")?,
        log1: path_in(alloc, folder, "log1")?,
        snap0: path_in(alloc, folder, "snap0")?,
        snap1: path_in(alloc, folder, "snap1")?,
        hist: path_in(alloc, folder, "hist")?,
    })
}

/// The path of a file in a folder.
fn path_in(alloc: Global, folder: &str, name: &str) -> Result<String, AllocError>
    ensures { IfOk result (λ path. string_bytes path ≡ folder.now ++ codes "/" ++ name.now) }
{
    let mut path = String::from_str(alloc, folder)?;
    path.push('/')?;
    path.push_str(name)?;
    Ok(path)
}

/// Opens the files of the folder of this name, which must be there, and makes those that are missing. Nobody else has `log0` locked then, and nobody can
/// lock it while it is open. What the files hold, and that the folder has them, is on the medium when it returns.
pub(crate) fn open_folder<R: Files<File = File>>(
    system: &R,
    folder: &str,
    paths: &FilePaths,
) -> io::Result<OpenFiles<File>> {
    let log0 = open_file(system, paths.log0.as_str())?;
    log0.try_lock()?;
    let files = OpenFiles {
        log0,
        log1: open_file(system, paths.log1.as_str())?,
        snap0: open_file(system, paths.snap0.as_str())?,
        snap1: open_file(system, paths.snap1.as_str())?,
        hist: open_file(system, paths.hist.as_str())?,
    };
    fs::open(system, folder)?.sync_all()?;
    Ok(files)
}

/// Opens a file, and makes it where it is missing.
fn open_file<R: Files<File = File>>(system: &R, path: &str) -> io::Result<File> {
    let mut how = OpenOptions::new();
    how.read(true).write(true).create(true);
    let file = how.open(system, path)?;
    file.sync_all()?;
    Ok(file)
}
