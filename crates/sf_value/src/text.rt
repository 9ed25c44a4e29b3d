//! A text that contracts see as its code points. A short one lies in the value itself.

ghost use Rattle.std.specs.Prelude.{◌≡◌, ◌↔◌, ◌==◌, ◌+◌, ◌<◌, ◌++◌, true, length, IfOk, IsTrue, OnErr};
ghost use Rattle.std.specs.Str.{all_scalars, chars, encode_utf8_all};
ghost use Rattle.std.specs.Cmp.Rules.{comparing, hashing};
ghost use Rattle.std.specs.Cmp.Lexicographic.{pointwise};
ghost use Rattle.std.specs.Hash as fed;
ghost use Rattle.std.proofs.Common.{rules};
ghost use Rattle.sf_value.specs.TextBytes.{kept_bytes};

use arrayvec::ArrayString;
use sf_list::TryClone;
use std::alloc::{AllocError, Global};
use std::hash::{Hash, Hasher};
use std::marker::Model;

/// The most bytes that a short text has.
const SHORT: usize = 22;

/// Where the bytes of a text lie.
enum Kept {
    /// At most `SHORT` bytes, in the value itself.
    Short(ArrayString<22>),
    /// More bytes, in memory of their own.
    Long(String),
}

/// Gives what is owned to a call of `drop`, so that a function that lets a text go has one step for it.
impl Drop for Kept {
    fn drop(self) {
        match self {
            Kept::Short(_) => {}
            Kept::Long(text) => drop(text),
        }
    }
}

impl Kept {
    fn of(alloc: Global, text: &str) -> Result<Kept, AllocError>
        ensures value { IfOk result (λ kept. kept_bytes kept ≡ text.now) }
        ensures short { OnErr result (22 < length text.now) }
    {
        match ArrayString::from(text) {
            Ok(short) => Ok(Kept::Short(short)),
            Err(_) => Ok(Kept::Long(String::from_str(alloc, text)?)),
        }
    }

    fn as_str(&self) -> &str
        ensures { result.now ≡ kept_bytes self.now }
    {
        match self {
            Kept::Short(text) => text.as_str(),
            Kept::Long(text) => text.as_str(),
        }
    }

    fn copy(&self, alloc: Global) -> Result<Kept, AllocError>
        ensures { IfOk result (λ made. kept_bytes made ≡ kept_bytes self.now) }
    {
        match self {
            Kept::Short(text) => Ok(Kept::Short(*text)),
            Kept::Long(text) => Ok(Kept::Long(String::from_str(alloc, text.as_str())?)),
        }
    }

    fn joined(alloc: Global, front: &str, behind: &str) -> Result<Kept, AllocError>
        ensures value { IfOk result (λ made. kept_bytes made ≡ front.now ++ behind.now) }
        ensures short { OnErr result (22 < length front.now + length behind.now) }
    {
        if front.len() <= SHORT && behind.len() <= SHORT - front.len() {
            let mut text = ArrayString::new();
            text.push_str(front);
            text.push_str(behind);
            return Ok(Kept::Short(text));
        }
        let mut text = String::from_str(alloc, front)?;
        text.push_str(behind)?;
        Ok(Kept::Long(text))
    }
}

/// A text in Unicode, kept as UTF-8.
#[derive(Drop)]
pub struct Text {
    kept: Kept,
}

impl Model for Text {
    ghost use Rattle.std.specs.Prelude.{List, ℕ};
    ghost use Rattle.std.specs.Coded.{coded_list, coded_ℕ};
    ghost use Rattle.std.specs.Str.{chars};
    ghost use Rattle.sf_value.specs.TextBytes.{kept_bytes};

    ghost Value = { List ℕ };

    ghost coded = { coded_list coded_ℕ };

    ghost view = { λ text. chars (kept_bytes text.kept) };
}

impl Text {
    pub fn of(alloc: Global, text: &str) -> Result<Text, AllocError>
        ensures { IfOk result (λ made. made ≡ chars text.now) }
    {
        Ok(Text {
            kept: Kept::of(alloc, text)?,
        })
    }

    pub fn as_str(&self) -> &str
        ensures points { chars result.now ≡ self.now }
        ensures bytes { result.now ≡ encode_utf8_all self.now }
        ensures unicode { all_scalars self.now ≡ true }
    {
        self.kept.as_str()
    }

    /// A text of this one and another behind it.
    pub fn joined(&self, alloc: Global, other: &Text) -> Result<Text, AllocError>
        ensures { IfOk result (λ made. made ≡ self.now ++ other.now) }
    {
        Ok(Text {
            kept: Kept::joined(alloc, self.as_str(), other.as_str())?,
        })
    }

    /// Whether two texts are equal. It takes no memory.
    pub fn same(&self, other: &Text) -> bool
        ensures { IsTrue result ↔ (self.now ≡ other.now) }
    {
        self.as_str() == other.as_str()
    }
}

impl TryClone for Text {
    ghost is_copy = { λ old made. made ≡ old };

    fn try_clone(&self, alloc: Global) -> Result<Text, AllocError> {
        Ok(Text {
            kept: self.kept.copy(alloc)?,
        })
    }
}

impl PartialEq for Text {
    ghost eq = { pointwise ◌==◌ };

    ghost laws = { Prim.search (comparing, rules) };

    fn eq(&self, other: &Text) -> bool {
        self.same(other)
    }
}

impl Eq for Text {
    ghost laws = { Prim.search (comparing, rules) };
}

impl Hash for Text {
    ghost hash_input = { λ text. fed.str (encode_utf8_all text) };

    ghost respects_eq = { Prim.search (hashing, rules) };

    fn hash<H: Hasher>(&self, state: &mut H) {
        self.as_str().hash(state);
    }
}
