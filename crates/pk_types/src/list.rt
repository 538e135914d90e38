// A list that grows at its end. Contracts see it as the list of its items.
ghost use Rattle.std.specs.Prelude.{◌≡◌, ◌<◌, ◌∷◌, [], ◌++◌, ◌==◌, length, IfErr, IfOk, IfSome, IfNone, OnOk, OnErr, remove, slice_get, slice_index_or, slice_set, take};
ghost use Rattle.std.specs.Option.{option_copied};

use crate::copies::TryCopy;
use std::alloc::{AllocError, AllocFailed, Global};
use std::marker::Model;

/// Memory was refused. It is the one refusal that no contract ties to a cause.
#[derive(Clone, Copy, Debug, PartialEq, Eq)]
pub struct NoMemory;

impl From<AllocError> for NoMemory {
    fn from(_: AllocError) -> Self {
        NoMemory
    }
}

impl<T: Drop> From<AllocFailed<T>> for NoMemory {
    fn from(_: AllocFailed<T>) -> Self {
        NoMemory
    }
}

/// A list over a vector, which contracts see as the list of its items.
///
/// It keeps the allocator that it was made with, so its methods take none.
#[derive(Drop)]
pub struct List<T> {
    items: Vec<T>,
}

impl<T> Model for List<T> {
    ghost use Rattle.std.specs.Prelude as prelude;

    ghost Value = { prelude.List T };

    ghost view = { λ a. a.items.items };
}

impl<T> List<T> {
    /// The empty list. It takes no memory.
    pub fn new(alloc: Global) -> Self
        ensures empty { result ≡ [] }
    {
        List {
            items: Vec::new(alloc),
        }
    }

    /// How many items the list has.
    pub fn len(&self) -> usize
        ensures length { result ≡ length self.now }
    {
        self.items.len()
    }

    /// Whether the list has no item.
    pub fn is_empty(&self) -> bool
        ensures empty { result ≡ (length self.now == 0) }
    {
        self.items.is_empty()
    }

    /// The item at a place counted from 0, and `None` exactly past the end.
    pub fn get(&self, i: usize) -> Option<&T>
        ensures item { option_copied result ≡ slice_get self.now i }
    {
        self.items.get(i)
    }

    /// The items, to be searched and walked.
    pub fn as_slice(&self) -> &[T]
        ensures items { result.now ≡ self.now }
    {
        self.items.as_slice()
    }

    /// The list of a vector's items. It takes no memory.
    pub fn from_vec(items: Vec<T>) -> Self
        ensures items { result ≡ items.items }
    {
        List { items }
    }

    /// The vector of the list's items. It takes no memory.
    pub fn into_vec(self) -> Vec<T>
        ensures items { result.items ≡ self }
    {
        self.items
    }
}

impl<T: Drop> List<T> {
    /// Puts an item at the end. A refusal leaves the list as it was.
    pub fn try_push(&mut self, item: T) -> Result<(), NoMemory>
        ensures ok { OnOk result (self.new ≡ self.old ++ item ∷ []) }
        ensures err { OnErr result (self.new ≡ self.old) }
    {
        self.items.push(item)?;
        Ok(())
    }

    /// Puts an item at the end. A refusal leaves the list as it was and hands the item back.
    pub fn push_or_return(&mut self, item: T) -> Result<(), T>
        ensures ok { OnOk result (self.new ≡ self.old ++ item ∷ []) }
        ensures err { OnErr result (self.new ≡ self.old) }
        ensures back { IfErr result (λ back. back ≡ item) }
    {
        match self.items.push(item) {
            Ok(()) => Ok(()),
            Err(refused) => Err(refused.value),
        }
    }

    /// Takes the last item out, and answers `None` exactly where there is none.
    pub fn pop(&mut self) -> Option<T>
        ensures last { IfSome result (λ item. self.old ≡ self.new ++ item ∷ []) }
        ensures empty { IfNone result (self.old ≡ []) }
        ensures still_empty { IfNone result (self.new ≡ []) }
    {
        self.items.pop()
    }

    /// Keeps the first `n` items.
    pub fn truncate(&mut self, n: usize)
        ensures front { self.new ≡ take n self.old }
    {
        self.items.truncate(n);
    }

    /// Puts another item in a place.
    pub fn set(&mut self, i: usize, item: T)
        requires { i < length self.old }
        ensures item { self.new ≡ slice_set self.old i item }
    {
        self.items[i] = item;
    }

    /// Takes the item at a place out. Those behind it move up.
    pub fn remove(&mut self, i: usize) -> T
        requires { i < length self.old }
        ensures item { slice_get self.old i ≡ Some result }
        ensures rest { self.new ≡ remove self.old i }
    {
        self.items.remove(i)
    }
}

impl<T: TryCopy> List<T> {
    /// A copy of the list and of each item.
    pub fn try_copy(&self) -> Result<List<T>, NoMemory>
        ensures copy { IfOk result (λ copy. copy ≡ self.now) }
    {
        let mut copies = Vec::new(*self.items.allocator());
        for item in self.items.as_slice() {
            copies.push(item.try_copy()?)?;
        }
        Ok(List { items: copies })
    }
}

impl<T: Copy> List<T> {
    /// A list of these items.
    pub fn try_from_slice(alloc: Global, items: &[T]) -> Result<Self, NoMemory>
        ensures items { IfOk result (λ list. list ≡ items.now) }
    {
        let items = Vec::from_slice(alloc, items)?;
        Ok(List { items })
    }
}
