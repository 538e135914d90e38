// The numbers of one subject's temporary authorizations.
ghost use Rattle.std.specs.Prelude.{◌≡◌, ◌<◌, ◌==◌, ◌++◌, ◌∷◌, [], not, filter, OnOk};

use pk_types::NoMemory;
use std::alloc::Global;
use std::marker::Model;

/// Numbers in their order, with room for more that is taken beforehand.
#[derive(Drop)]
pub struct Numbers {
    items: Vec<u64>,
}

impl Model for Numbers {
    ghost use Rattle.std.specs.Prelude.{ℕ, ◌-◌, vec_len, vec_capacity};
    ghost use Rattle.pk_types.specs.Roomy.{Roomy};

    ghost Value = { Roomy ℕ };

    ghost view = { λ a. record { items = a.items.items; room = vec_capacity a.items - vec_len a.items } };
}

impl Numbers {
    /// No numbers. It takes no memory.
    pub fn new(alloc: Global) -> Numbers
        ensures empty { result.items ≡ [] }
    {
        Numbers {
            items: Vec::new(alloc),
        }
    }

    /// The numbers.
    pub fn as_slice(&self) -> &[u64]
        ensures items { result.now ≡ self.now.items }
    {
        self.items.as_slice()
    }

    /// Takes room for one more. The numbers stay.
    ///
    /// # Errors
    /// `NoMemory` alone.
    pub fn reserve(&mut self) -> Result<(), NoMemory>
        ensures items { self.new.items ≡ self.old.items }
        ensures ok { OnOk result (0 < self.new.room) }
    {
        self.items.reserve(1)?;
        Ok(())
    }

    /// Puts a number at the end, and nowhere else. It takes no memory.
    pub fn put(&mut self, number: u64)
        requires room { 0 < self.old.room }
        ensures items { self.new.items ≡ filter (λ n. not (n == number)) self.old.items ++ number ∷ [] }
    {
        self.items.retain(|n| *n != number);
        self.items.push_reserved(number);
    }
}
