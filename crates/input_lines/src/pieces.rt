//! The input, piece by piece.

ghost use Rattle.std.specs.Prelude.{◌≡◌, ◌<◌, ◌≤◌, ℕ, List, [], length, drop};
ghost use Rattle.sf_outside.specs.Causes.{HasCause};
ghost use Rattle.input_lines.specs.Reads.{Fills, AsksOne};
ghost use Rattle.input_lines.specs.FileReads.{FillsAt, AsksAt};

use sf_outside::{Failed, Files, Source};
use std::marker::Model;

/// How many bytes one read may take.
const PIECE: usize = 4096;

/// What was read last, as far as it isn't used yet.
#[derive(Drop)]
pub(crate) struct Piece {
    bytes: [u8; PIECE],
    from: usize,
    to: usize,
}

impl Model for Piece {
    ghost use Rattle.std.specs.Prelude.{◌≤◌, ◌-◌, List, ℕ, take, drop};
    ghost use Rattle.std.specs.Coded.{coded_list, coded_ℕ};

    ghost Value = { List ℕ };

    ghost coded = { coded_list coded_ℕ };

    ghost view = { λ piece. take (piece.to - piece.from) (drop piece.from piece.bytes) };

    ghost invariant = { λ piece. (piece.from ≤ piece.to) × (piece.to ≤ 4096) };
}

impl Piece {
    pub(crate) fn new() -> Piece
        ensures { result ≡ [] }
    {
        Piece {
            bytes: [0; PIECE],
            from: 0,
            to: 0,
        }
    }

    pub(crate) fn as_slice(&self) -> &[u8]
        ensures { result.now ≡ self.now }
    {
        &self.bytes[self.from..self.to]
    }

    /// Uses its first bytes.
    pub(crate) fn skip(&mut self, count: usize)
        requires { count ≤ length self.old }
        ensures { self.new ≡ drop count self.old }
    {
        self.from += count;
    }

    /// Uses all of it.
    pub(crate) fn clear(&mut self)
        ensures { self.new ≡ [] }
    {
        self.from = self.to;
    }

    /// Takes the next piece in place of what stands, and answers how many bytes it has, 0 at the end.
    pub(crate) fn fill<S: Source>(&mut self, input: &mut S, room: u64) -> Result<usize, Failed>
        requires { 0 < room }
        ensures fills { Fills room (S.left input.old) (S.left input.new) self.new result }
        ensures cause { HasCause (S.faults input.old) (S.faults input.new) result }
    {
        self.clear();
        let most = next_piece(room);
        let count = input.read(&mut self.bytes[..most])?;
        self.from = 0;
        self.to = count;
        Ok(count)
    }

    /// Takes the piece at a place of a file in place of what stands, and answers how many bytes it has, 0 at the end.
    pub(crate) fn fill_at<F: Files>(
        &mut self,
        files: &mut F,
        name: &str,
        at: u64,
        room: u64,
    ) -> Result<usize, Failed>
        requires { 0 < room }
        ensures fills { FillsAt room at (F.content files.old name.now) self.new result }
        ensures kept { (q : List ℕ) → F.content files.new q ≡ F.content files.old q }
        ensures cause { HasCause (F.faults files.old name.now) (F.faults files.new name.now) result }
        ensures later { (q : List ℕ) → F.faults files.old q ≤ F.faults files.new q }
    {
        self.from = 0;
        self.to = 0;
        let most = next_piece(room);
        let count = files.read_at(name, at, &mut self.bytes[..most])?;
        self.to = count;
        Ok(count)
    }
}

/// How many bytes the next read may take, where so many may still be taken.
fn next_piece(room: u64) -> usize
    requires { 0 < room }
    ensures some { 0 < result }
    ensures within { result ≤ room }
    ensures fits { result ≤ 4096 }
{
    if room < PIECE as u64 {
        room as usize
    } else {
        PIECE
    }
}

/// Whether the input has a byte more, which is taken.
pub(crate) fn goes_on<S: Source>(input: &mut S) -> Result<bool, Failed>
    ensures asks { AsksOne (S.left input.old) (S.left input.new) result }
    ensures cause { HasCause (S.faults input.old) (S.faults input.new) result }
{
    let mut byte = [0; 1];
    Ok(input.read(&mut byte)? != 0)
}

/// Whether the file has a byte at a place.
pub(crate) fn has_byte_at<F: Files>(files: &mut F, name: &str, at: u64) -> Result<bool, Failed>
    ensures asks { AsksAt at (F.content files.old name.now) result }
    ensures kept { (q : List ℕ) → F.content files.new q ≡ F.content files.old q }
    ensures cause { HasCause (F.faults files.old name.now) (F.faults files.new name.now) result }
    ensures later { (q : List ℕ) → F.faults files.old q ≤ F.faults files.new q }
{
    let mut one = [0; 1];
    Ok(files.read_at(name, at, &mut one)? > 0)
}
