//! A program whose method returns the name of its loop, which may have no value, and that program mended.

use std::alloc::{AllocError, Global};

pub const LAST: &[u8] = b"from stateflow import entity
@entity
class L:
    def __init__(self, k: str):
        self.k: str = k
    def __key__(self):
        return self.k
    def last(self, xs: List[int]) -> int:
        for x in xs:
            pass
        return x
";

/// The lines of [`LAST`] with an assignment before the loop.
pub const MENDED: [&[u8]; 12] = [
    b"from stateflow import entity",
    b"@entity",
    b"class L:",
    b"    def __init__(self, k: str):",
    b"        self.k: str = k",
    b"    def __key__(self):",
    b"        return self.k",
    b"    def last(self, xs: List[int]) -> int:",
    b"        x = 0",
    b"        for x in xs:",
    b"            pass",
    b"        return x",
];

/// The mended program with these line ends, and one between the last two lines alone.
pub fn mended(alloc: Global, end: &[u8]) -> Result<Vec<u8>, AllocError> {
    let mut text = Vec::new(alloc);
    for line in &MENDED {
        if !text.is_empty() {
            text.extend_from_slice(end)?;
        }
        text.extend_from_slice(line)?;
    }
    Ok(text)
}
