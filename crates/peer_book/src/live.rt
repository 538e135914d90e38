// The numbers of the live connections, by rising number.
ghost use Rattle.std.specs.Prelude.{◌≡◌, ◌<◌, ◌==◌, [], not, filter, length, slice_get, OnOk};
ghost use Rattle.authority_model.specs.Peers.{insert_rising};

use pk_types::NoMemory;
use std::alloc::Global;
use std::marker::Model;

/// Numbers of connections, in rising order.
#[derive(Drop)]
pub struct Rising {
    numbers: Vec<u32>,
}

impl Model for Rising {
    ghost use Rattle.std.specs.Prelude.{◌-◌, vec_len, vec_capacity};
    ghost use Rattle.std.specs.List.Sorted.{IsStrictlySortedBy};
    ghost use Rattle.std.specs.Ordering.{nat_cmp};
    ghost use Rattle.peer_book.specs.Rows.{Numbers};

    ghost Value = { Numbers };

    ghost view = { λ a. record { items = a.numbers.items; room = vec_capacity a.numbers - vec_len a.numbers } };

    ghost invariant = { λ a. IsStrictlySortedBy nat_cmp a.numbers.items };
}

impl Rising {
    ghost use Rattle.std.specs.List.Sorted.{IsStrictlySortedBy};
    ghost use Rattle.std.specs.Ordering.{nat_cmp};

    /// No numbers. It takes no memory.
    pub fn new(alloc: Global) -> Rising
        ensures empty { result.items ≡ [] }
    {
        Rising {
            numbers: Vec::new(alloc),
        }
    }

    /// The number at a place, counted from 0. They rise.
    pub fn nth(&self, i: usize) -> Option<u32>
        ensures number { result ≡ slice_get self.now.items i }
        ensures rising { IsStrictlySortedBy nat_cmp self.now.items }
    {
        self.numbers.get(i).copied()
    }

    /// How many numbers there are.
    pub fn len(&self) -> usize
        ensures length { result ≡ length self.now.items }
    {
        self.numbers.len()
    }

    /// Takes room for one more number.
    pub fn reserve(&mut self) -> Result<(), NoMemory>
        ensures items { self.new.items ≡ self.old.items }
        ensures ok { OnOk result (0 < self.new.room) }
    {
        self.numbers.reserve(1)?;
        Ok(())
    }

    /// Puts a number in its place, where it does not stand already. It takes no memory.
    pub fn put(&mut self, number: u32)
        requires room { 0 < self.old.room }
        ensures items { self.new.items ≡ insert_rising number self.old.items }
    {
        if let Err(place) = self.numbers.binary_search(&number) {
            match self.numbers.insert(place, number) {
                Ok(()) => {}
                Err(_) => unreachable!(),
            }
        }
    }

    /// Takes a number out. It takes no memory.
    pub fn take_out(&mut self, number: u32)
        ensures items { self.new.items ≡ filter (λ n. not (n == number)) self.old.items }
    {
        self.numbers.retain(|other| *other != number);
    }
}
