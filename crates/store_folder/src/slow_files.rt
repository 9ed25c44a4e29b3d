//! Tests on files that take and give a byte at a time, and of which one can't be synced.

use crate::file_access::{read_whole_at, write_whole_at};
use crate::open_files::OpenFiles;
use sf_outside::StoreFile;
use std::fs::{Metadata, OpenFile};
use std::io::{self, Read, Seek, SeekFrom, Write};
use std::test::Fail;

/// A file of eight bytes.
#[derive(Drop)]
struct SlowFile {
    bytes: [u8; 8],
    at: usize,
    can_sync: bool,
}

/// A file of zeros.
fn slow_file(can_sync: bool) -> SlowFile {
    SlowFile {
        bytes: [0; 8],
        at: 0,
        can_sync,
    }
}

impl Read for SlowFile {
    fn read(&mut self, buf: &mut [u8]) -> io::Result<usize> {
        if self.at >= 8 || buf.is_empty() {
            return Ok(0);
        }
        buf[0] = self.bytes[self.at];
        self.at += 1;
        Ok(1)
    }
}

impl Write for SlowFile {
    fn write(&mut self, buf: &[u8]) -> io::Result<usize> {
        if self.at >= 8 || buf.is_empty() {
            return Ok(0);
        }
        self.bytes[self.at] = buf[0];
        self.at += 1;
        Ok(1)
    }

    fn flush(&mut self) -> io::Result<()> {
        Ok(())
    }
}

impl Seek for SlowFile {
    fn seek(&mut self, to: SeekFrom) -> io::Result<u64> {
        let at = match to {
            SeekFrom::Start(at) => at.min(8),
            _ => 8,
        };
        self.at = at as usize;
        Ok(at)
    }
}

impl OpenFile for SlowFile {
    fn metadata(&self) -> io::Result<Metadata> {
        Err(io::Error::from(io::ErrorKind::Unsupported))
    }

    fn set_len(&self, _size: u64) -> io::Result<()> {
        Err(io::Error::from(io::ErrorKind::Unsupported))
    }

    fn sync_all(&self) -> io::Result<()> {
        if self.can_sync {
            Ok(())
        } else {
            Err(io::Error::from(io::ErrorKind::Other))
        }
    }

    fn sync_data(&self) -> io::Result<()> {
        Ok(())
    }
}

#[test]
fn reads_and_writes_go_on_until_all_is_done(rt: HostRuntime) -> Result<(), Fail> {
    let mut file = slow_file(true);
    write_whole_at(&mut file, 5, b"abc")?;
    write_whole_at(&mut file, 4, b"!")?;
    let mut found = [b'?'; 8];
    assert_eq!(rt; read_whole_at(&mut file, 3, &mut found)?, 5);
    assert_eq!(rt; found, *b"\0!abc???");
    assert!(rt; write_whole_at(&mut file, 6, b"def").is_err());
    Ok(())
}

/// Files of which this one can't be synced.
fn files_but(unsafe_one: StoreFile) -> OpenFiles<SlowFile> {
    OpenFiles {
        log0: slow_file(unsafe_one != StoreFile::Log0),
        log1: slow_file(unsafe_one != StoreFile::Log1),
        snap0: slow_file(unsafe_one != StoreFile::Snap0),
        snap1: slow_file(unsafe_one != StoreFile::Snap1),
        hist: slow_file(unsafe_one != StoreFile::Hist),
    }
}

const FILES: [StoreFile; 5] = [
    StoreFile::Log0,
    StoreFile::Log1,
    StoreFile::Snap0,
    StoreFile::Snap1,
    StoreFile::Hist,
];

#[test]
fn sync_is_asked_of_the_file(rt: HostRuntime) -> Result<(), Fail> {
    for unsafe_one in FILES {
        let mut files = files_but(unsafe_one);
        for file in FILES {
            assert_eq!(rt; files.sync(file).is_ok(), file != unsafe_one);
        }
    }
    Ok(())
}
