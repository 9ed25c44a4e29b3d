//! The bytes that are kept of a line.

ghost use Rattle.std.specs.Prelude.{◌≡◌, [], OnOk, OnErr};
ghost use Rattle.input_lines.specs.Reads.{Grows};

use std::alloc::{AllocError, Global};
use std::marker::Model;

/// The first bytes of a line, up to one more than it may have. So a line that is too long is told from
/// the longest one, and takes bounded room.
#[derive(Drop)]
pub(crate) struct LineStart {
    kept: Vec<u8>,
}

impl Model for LineStart {
    ghost use Rattle.std.specs.Prelude.{List, ℕ};
    ghost use Rattle.std.specs.Coded.{coded_list, coded_ℕ};

    ghost Value = { List ℕ };

    ghost coded = { coded_list coded_ℕ };

    ghost view = { λ start. start.kept.items };
}

impl LineStart {
    /// Of a line no byte of which came. It takes no memory.
    pub(crate) fn new(alloc: Global) -> LineStart
        ensures { result ≡ [] }
    {
        LineStart {
            kept: Vec::new(alloc),
        }
    }

    pub(crate) fn as_slice(&self) -> &[u8]
        ensures { result.now ≡ self.now }
    {
        self.kept.as_slice()
    }

    /// Begins another line. The room that the last one took stays for it.
    pub(crate) fn clear(&mut self)
        ensures { self.new ≡ [] }
    {
        self.kept.clear();
    }

    /// Goes on with the line, which may have `longest` bytes.
    pub(crate) fn keep(&mut self, longest: u32, bytes: &[u8]) -> Result<(), AllocError>
        ensures grows { OnOk result (Grows longest self.old self.new bytes.now) }
        ensures unchanged { OnErr result (self.new ≡ self.old) }
    {
        let room = (longest as usize + 1).saturating_sub(self.kept.len());
        let count = room.min(bytes.len());
        self.kept.extend_from_slice(&bytes[..count])?;
        Ok(())
    }
}
