// How many of the pending challenges are of checks of each user.
ghost use Rattle.std.specs.Prelude.{◌≡◌, ◌<◌, [], OnOk};
ghost use Rattle.challenge_book.specs.Users.{count_at, IsOneMore};

use indexmap::IndexMap;
use pk_types::NoMemory;
use std::alloc::Global;
use std::marker::Model;

/// How many challenges are of checks of each user that has one.
#[derive(Drop)]
pub struct UserCounts {
    counts: IndexMap<u32, u32>,
}

impl Model for UserCounts {
    ghost use Rattle.indexmap.specs.IndexMap.{spare};
    ghost use Rattle.challenge_book.specs.Users.{Counts, HaveSome};

    ghost Value = { Counts };

    ghost view = { λ a. record { entries = a.counts.entries; room = spare a.counts } };

    ghost invariant = { λ a. HaveSome a.counts.entries };
}

impl UserCounts {
    /// No challenges. It takes no memory.
    pub fn new(alloc: Global) -> UserCounts
        ensures empty { result.entries ≡ [] }
    {
        UserCounts {
            counts: IndexMap::new(alloc),
        }
    }

    /// How many challenges are of checks of a user.
    pub fn of(&self, uid: u32) -> u32
        ensures count { result ≡ count_at self.now.entries uid }
    {
        self.counts.get(&uid).copied().unwrap_or(0)
    }

    /// Takes room for one more user. A refusal leaves the counts as they were.
    pub fn reserve(&mut self) -> Result<(), NoMemory>
        ensures entries { self.new.entries ≡ self.old.entries }
        ensures ok { OnOk result (0 < self.new.room) }
    {
        self.counts.reserve(1)?;
        Ok(())
    }

    /// Counts one more challenge of a user, where there is room.
    pub fn count_up(&mut self, uid: u32)
        requires room { 0 < self.old.room }
        requires few { count_at self.old.entries uid < u32.MAX }
        ensures more { IsOneMore uid self.old.entries self.new.entries }
    {
        let count = self.counts.get(&uid).copied().unwrap_or(0);
        match self.counts.insert(uid, count + 1) {
            Ok(_) => {}
            Err(_) => unreachable!(),
        }
    }

    /// Counts one challenge of a user less, and forgets a user with none.
    pub fn count_down(&mut self, uid: u32)
        requires some { 0 < count_at self.old.entries uid }
        ensures fewer { IsOneMore uid self.new.entries self.old.entries }
    {
        let count = self.counts.get(&uid).copied().unwrap_or(0);
        if count == 1 {
            self.counts.swap_remove(&uid);
            return;
        }
        match self.counts.insert(uid, count - 1) {
            Ok(_) => {}
            Err(_) => unreachable!(),
        }
    }
}
