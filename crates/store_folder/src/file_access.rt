//! Whole reads and writes at a place of a file.

ghost use Rattle.std.specs.Io.{ReadsAtMost};

use std::io::{self, Read, Seek, SeekFrom, Write};

pub(crate) fn file_length<F: Seek>(file: &mut F) -> io::Result<u64> {
    file.seek(SeekFrom::End(0))
}

/// Reads from a place on until the buffer is full or the file ends, and answers how many bytes came.
pub(crate) fn read_whole_at<F: Read + Seek>(
    file: &mut F,
    at: u64,
    buf: &mut [u8],
) -> io::Result<usize>
    ensures bound { ReadsAtMost result buf.new }
{
    file.seek(SeekFrom::Start(at))?;
    let mut taken = 0;
    while taken < buf.len() {
        match file.read(&mut buf[taken..])? {
            0 => return Ok(taken),
            count => taken += count,
        }
    }
    Ok(taken)
}

/// Writes all bytes at a place. What lies between the end of the file and the place is filled with zeros.
pub(crate) fn write_whole_at<F: Write + Seek>(
    file: &mut F,
    at: u64,
    bytes: &[u8],
) -> io::Result<()> {
    file.seek(SeekFrom::Start(at))?;
    let mut written = 0;
    while written < bytes.len() {
        match file.write(&bytes[written..])? {
            0 => return Err(io::Error::from(io::ErrorKind::WriteZero)),
            count => written += count,
        }
    }
    Ok(())
}
