// How many actions each load has.
ghost use Rattle.std.specs.Prelude.{◌≡◌, ◌<◌, ◌∷◌, ◌++◌, [], IfOk, OnOk, length};
ghost use Rattle.scenario_run.specs.Counting.{count_at, listed_at};

use authority_model::{Answer, Loaded, Message};
use pk_types::{NoMemory, Reserved};
use std::alloc::Global;
use std::marker::Model;

/// How many actions each load has, the oldest first. Nothing else of a load is kept.
#[derive(Drop)]
pub struct ActionCounts {
    counts: Reserved<u32>,
}

impl Model for ActionCounts {
    ghost use Rattle.std.specs.Prelude.{ℕ};
    ghost use Rattle.pk_types.specs.Roomy.{Roomy};

    ghost Value = { Roomy ℕ };

    ghost view = { λ a. a.counts };
}

impl ActionCounts {
    /// The counts before the first load. It takes no memory.
    pub fn new(alloc: Global) -> ActionCounts
        ensures none { result.items ≡ [] }
    {
        ActionCounts {
            counts: Reserved::new(alloc),
        }
    }

    /// How many actions a load has, with room for its count.
    pub fn of(&mut self, loaded: &Loaded) -> Result<u32, NoMemory>
        ensures count { IfOk result (λ count. count ≡ length loaded.now.policy.actions) }
        ensures room { OnOk result (0 < self.new.room) }
        ensures same { self.new.items ≡ self.old.items }
    {
        self.counts.try_reserve(1)?;
        u32::try_from(loaded.policy.actions.len()).map_err(|_| NoMemory)
    }

    /// Puts the count of the next load last, where there is room.
    pub fn push(&mut self, count: u32)
        requires room { 0 < self.old.room }
        ensures items { self.new.items ≡ self.old.items ++ count ∷ [] }
    {
        self.counts.push_reserved(count);
    }

    /// How many actions the load with this number has, and 0 where there is none.
    fn at(&self, load: u32) -> u32
        ensures count { result ≡ count_at self.now.items load }
    {
        if load == 0 {
            return 0;
        }
        match self.counts.as_slice().get(load as usize - 1) {
            Some(count) => *count,
            None => 0,
        }
    }

    /// How many actions the load has that a message lists, and 0 where it lists none.
    pub fn listed(&self, message: &Message) -> u32
        ensures count { result ≡ listed_at self.now.items message.now }
    {
        match message {
            Message::Reply {
                serial: _,
                answer: Answer::Actions { load, locale: _ },
            } => self.at(*load),
            _ => 0,
        }
    }
}
