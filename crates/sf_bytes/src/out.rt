//! Where bytes go, one behind another: to the end of a list, into a count, or wherever a crate above puts them.

ghost use Rattle.std.specs.Prelude.{◌≡◌, ◌++◌, ℕ, List, [], length, OnOk, OnErr};
ghost use Rattle.sf_bytes.specs.Counting.{CountsOn};
ghost use Rattle.sf_bytes.specs.PutLaws.{list_start, list_next, count_start, count_next};

use sf_value::Bytes;
use std::alloc::{AllocError, Global};
use std::convert::Infallible;

/// What takes bytes, over a device of this type. The device stands beside it, so that nothing holds a loan of it.
///
/// Each thing is written to every `Out` by the same call. So its length is counted by what writes it.
pub trait Out<D> {
    /// Why no more is taken.
    type Stop;

    /// From the one state of both to the other exactly these bytes were put.
    ghost puts: { Self → D → Self → D → List ℕ → Type 0 };

    /// From the one to the other some were put, and then it stopped.
    ghost stops: { Self → D → Self → D → Type 0 };

    fn put(&mut self, on: &mut D, bytes: &[u8]) -> Result<(), Self::Stop>
        ensures all { OnOk result (puts self.old on.old self.new on.new bytes.now) }
        ensures part { OnErr result (stops self.old on.old self.new on.new) };

    /// Where nothing was called, no bytes were put.
    ghost start: { (a : Self) (d : D) → puts a d a d [] };

    /// First these were put, and then those.
    ghost next: { (a : Self) (d : D) (b : Self) (e : D) (c : Self) (f : D) (x y : List ℕ) → puts a d b e x → puts b e c f y → puts a d c f (x ++ y) };

    /// First these were put, and then it stopped.
    ghost last: { (a : Self) (d : D) (b : Self) (e : D) (c : Self) (f : D) (x : List ℕ) → puts a d b e x → stops b e c f → stops a d c f };
}

impl Out<Global> for Bytes {
    type Stop = AllocError;

    ghost puts = { λ a d b e bytes. b ≡ a ++ bytes };

    ghost stops = { λ a d b e. Unit {0} };

    fn put(&mut self, on: &mut Global, bytes: &[u8]) -> Result<(), AllocError> {
        self.extend_from_slice(*on, bytes)
    }

    ghost start = { λ a d. list_start a };

    ghost next = { λ a d b e c f x y. list_next a b c x y };

    ghost last = { λ a d b e c f x first second. tt };
}

/// How many bytes were put. It stays at the last number of its type, and takes no memory.
#[derive(Drop)]
pub struct Count {
    pub bytes: u64,
}

impl Out<()> for Count {
    type Stop = Infallible;

    ghost puts = { λ a d b e bytes. CountsOn a.bytes b.bytes (length bytes) };

    ghost stops = { λ a d b e. ⊥ };

    fn put(&mut self, _on: &mut (), bytes: &[u8]) -> Result<(), Infallible> {
        self.bytes = self.bytes.saturating_add(bytes.len() as u64);
        Ok(())
    }

    ghost start = { λ a d. count_start a.bytes };

    ghost next = { λ a d b e c f x y. count_next a.bytes b.bytes c.bytes x y };

    ghost last = { λ a d b e c f x first second. second };
}
