//! A growable list that contracts see as the list of its elements, and copies that may want memory.
//!
//! Trees and values hold their children in a [`Sequence`], so that one list type with one set of
//! laws serves every list of the workspace, also where an element leads back to the list.
#![tactic(auto)]

ghost use Rattle.std.specs.Prelude.{◌≡◌, [], ◌∷◌, ◌++◌, ◌+◌, ◌<◌, ◌↔◌, Some, length, take, drop, slice_get, slice_set, IsTrue, IsSome, IfOk, OnOk, OnErr, OnSome};
ghost use Rattle.std.specs.Option.{option_copied, option_to_list};
ghost use Rattle.std.specs.Borrow.{sem};
ghost use Rattle.sf_list.specs.Copies.{AreCopies};
ghost use Rattle.sf_list.specs.Taking.{TakesApart};

use std::alloc::{AllocError, Global};
use std::marker::Model;
use std::vec::IntoIter;

/// A value that can be copied where there is memory for it.
pub trait TryClone: Sized {
    /// The second is a copy of the first.
    ghost is_copy: { Self → Self → Type 0 };

    /// A copy of this value. Without memory nothing was made.
    fn try_clone(&self, alloc: Global) -> Result<Self, AllocError>
        ensures { IfOk result (λ made. is_copy self.now made) };
}

/// A list. It grows by the allocator that it was made with.
#[derive(Debug, Drop)]
pub struct Sequence<T> {
    items: Vec<T>,
}

impl<T> Model for Sequence<T> {
    ghost use Rattle.std.specs.Prelude.{List};
    ghost use Rattle.std.specs.Coded.{coded_list};

    ghost Value = { List T };

    ghost coded = { coded_list T.code };

    ghost view = { λ list. list.items.items };
}

impl<T> Sequence<T> {
    ghost use Rattle.sf_list.specs.Lends.{LendsItem};

    /// The empty list, which takes no memory.
    pub fn new(alloc: Global) -> Sequence<T>
        ensures { result ≡ [] }
    {
        Sequence {
            items: Vec::new(alloc),
        }
    }

    /// The list of a vector's elements. It takes no memory.
    pub fn from_vec(items: Vec<T>) -> Sequence<T>
        ensures { result ≡ items.items }
    {
        Sequence { items }
    }

    /// The empty list, with room for so many elements.
    pub fn with_room(alloc: Global, count: usize) -> Result<Sequence<T>, AllocError>
        ensures { IfOk result (λ made. made ≡ []) }
    {
        let items = Vec::with_capacity(alloc, count)?;
        Ok(Sequence { items })
    }

    pub fn as_slice(&self) -> &[T]
        ensures { result.now ≡ self.now }
    {
        self.items.as_slice()
    }

    pub fn len(&self) -> usize
        ensures { result ≡ length self.now }
    {
        self.items.len()
    }

    pub fn is_empty(&self) -> bool
        ensures { IsTrue result ↔ (self.now ≡ []) }
    {
        self.items.is_empty()
    }

    /// The element at a place counted from 0.
    pub fn get(&self, i: usize) -> Option<&T>
        ensures value { option_copied result ≡ slice_get self.now i }
        ensures within { OnSome result (i < length self.now) }
    {
        self.items.get(i)
    }

    /// The element at a place counted from 0, for writing.
    pub fn at_mut(&mut self, at: usize) -> &mut T
        requires { at < length self.old }
        ensures* writes_back { sem 𝓛 (LendsItem T.row self.entry at result) }
        ensures value { slice_get self.old at ≡ Some result.now }
    {
        &mut self.items[at]
    }

    /// Takes the last element out, where there is one.
    pub fn pop(&mut self) -> Option<T>
        ensures taken { self.old ≡ self.new ++ option_to_list result }
        ensures some { IsSome result ↔ (0 < length self.old) }
    {
        self.items.pop()
    }
}

impl<T: Drop> Sequence<T> {
    /// Adds an element at the end. The list keeps its own allocator, so `alloc` is unused.
    pub fn push(&mut self, _alloc: Global, item: T) -> Result<(), AllocError>
        ensures ok { OnOk result (self.new ≡ self.old ++ item ∷ []) }
        ensures err { OnErr result (self.new ≡ self.old) }
    {
        self.items.push(item)?;
        Ok(())
    }

    /// Adds the elements of another list at the end. The list keeps its own allocator, so `alloc` is unused.
    pub fn append(&mut self, _alloc: Global, other: Sequence<T>) -> Result<(), AllocError>
        ensures ok { OnOk result (self.new ≡ self.old ++ other) }
        ensures err { OnErr result (self.new ≡ self.old) }
    {
        let mut other = other;
        self.items.append(&mut other.items)
    }

    /// Takes out the element at a place counted from 0. Those behind it move up.
    pub fn remove(&mut self, at: usize) -> T
        requires { at < length self.old }
        ensures value { slice_get self.old at ≡ Some result }
        ensures rest { self.new ≡ take at self.old ++ drop (at + 1) self.old }
    {
        self.items.remove(at)
    }

    /// Replaces the element at a place counted from 0.
    pub fn set(&mut self, at: usize, item: T)
        requires { at < length self.old }
        ensures { self.new ≡ slice_set self.old at item }
    {
        self.items[at] = item;
    }
}

/// The elements are taken out from the front, and none of those behind moves up.
impl<T: Drop> IntoIterator for Sequence<T> {
    type Item = T;

    type IntoIter = IntoIter<T>;

    ghost into_iter_gives = { TakesApart };

    fn into_iter(self) -> IntoIter<T> {
        self.items.into_iter()
    }
}

impl<T: Copy> Sequence<T> {
    /// Adds copies of the elements at the end. The list keeps its own allocator, so `alloc` is unused.
    pub fn extend_from_slice(&mut self, _alloc: Global, items: &[T]) -> Result<(), AllocError>
        ensures ok { OnOk result (self.new ≡ self.old ++ items.now) }
        ensures err { OnErr result (self.new ≡ self.old) }
    {
        self.items.extend_from_slice(items)
    }
}

impl<T: TryClone + Drop> TryClone for Sequence<T> {
    ghost is_copy = { AreCopies T.is_copy };

    fn try_clone(&self, alloc: Global) -> Result<Sequence<T>, AllocError> {
        let mut made = Sequence::with_room(alloc, self.len())?;
        for item in self.as_slice() {
            made.push(alloc, item.try_clone(alloc)?)?;
        }
        Ok(made)
    }
}

impl TryClone for u8 {
    ghost is_copy = { λ old made. made ≡ old };

    fn try_clone(&self, _alloc: Global) -> Result<u8, AllocError> {
        Ok(*self)
    }
}

impl TryClone for u32 {
    ghost is_copy = { λ old made. made ≡ old };

    fn try_clone(&self, _alloc: Global) -> Result<u32, AllocError> {
        Ok(*self)
    }
}
