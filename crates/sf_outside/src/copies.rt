//! Bytes that are copied out of others at a place.

ghost use Rattle.std.specs.Prelude.{◌≤◌, length};
ghost use Rattle.sf_outside.specs.Bytes.{CopiedAll};

/// Copies as many bytes as stand at the place and have room.
pub fn copy_at(bytes: &[u8], at: u64, buf: &mut [u8]) -> usize
    ensures within { result ≤ length buf.new }
    ensures copied { CopiedAll bytes.now at result buf.new }
{
    let start = bytes.len().min(at as usize);
    let rest = &bytes[start..];
    let count = rest.len().min(buf.len());
    buf[..count].copy_from_slice(&rest[..count]);
    count
}
