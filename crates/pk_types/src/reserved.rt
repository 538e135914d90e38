// A list with room taken beforehand. Contracts see its items and how many more have room.
ghost use Rattle.std.specs.Prelude.{◌≡◌, ◌<◌, ◌≤◌, ◌-◌, ◌+◌, ◌==◌, ◌∷◌, [], ◌++◌, length, OnOk, OnErr};
ghost use Rattle.pk_types.specs.Roomy.{Roomy};

use crate::list::{List, NoMemory};
use std::alloc::Global;
use std::marker::Model;

/// A list that may take room for items before they come, so that none of them is refused.
///
/// What must not fail half way takes all its room first.
#[derive(Drop)]
pub struct Reserved<T> {
    items: Vec<T>,
}

impl<T> Model for Reserved<T> {
    ghost use Rattle.std.specs.Prelude.{◌-◌, vec_len, vec_capacity};
    ghost use Rattle.pk_types.specs.Roomy.{Roomy};

    ghost Value = { Roomy T };

    ghost view = { λ a. record { items = a.items.items; room = vec_capacity a.items - vec_len a.items } };
}

impl<T> Reserved<T> {
    /// The empty list. It takes no memory.
    pub fn new(alloc: Global) -> Self
        ensures empty { result.items ≡ [] }
    {
        Reserved {
            items: Vec::new(alloc),
        }
    }

    /// The items, to be searched and walked.
    pub fn as_slice(&self) -> &[T]
        ensures items { result.now ≡ self.now.items }
    {
        self.items.as_slice()
    }

    /// How many items the list has.
    pub fn len(&self) -> usize
        ensures length { result ≡ length self.now.items }
    {
        self.items.len()
    }

    /// Whether the list has no item.
    pub fn is_empty(&self) -> bool
        ensures empty { result ≡ (length self.now.items == 0) }
    {
        self.items.is_empty()
    }

    /// How many more items have room.
    pub fn room(&self) -> usize
        ensures room { result ≡ self.now.room }
    {
        self.items.capacity() - self.items.len()
    }

    /// The list of the same items. It takes no memory.
    pub fn into_list(self) -> List<T>
        ensures items { result ≡ self.items }
    {
        List::from_vec(self.items)
    }
}

impl<T: Drop> Reserved<T> {
    /// Takes room for so many more items. A refusal leaves items and room as they were.
    pub fn try_reserve(&mut self, additional: usize) -> Result<(), NoMemory>
        ensures items { self.new.items ≡ self.old.items }
        ensures ok { OnOk result (additional ≤ self.new.room) }
        ensures err { OnErr result (self.new.room ≡ self.old.room) }
    {
        self.items.reserve(additional)?;
        Ok(())
    }

    /// Puts an item at the end, where there is room for it. It takes no memory.
    pub fn push_reserved(&mut self, item: T)
        requires { 0 < self.old.room }
        ensures items { self.new.items ≡ self.old.items ++ item ∷ [] }
        ensures room { self.old.room ≤ self.new.room + 1 }
    {
        match self.items.push(item) {
            Ok(()) => {}
            Err(_) => unreachable!(),
        }
    }
}
