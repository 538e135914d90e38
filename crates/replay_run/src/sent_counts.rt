// How many outputs each connection was sent.
ghost use Rattle.std.specs.Prelude.{◌≡◌, ◌+◌, ℕ, IfOk, OnOk};
ghost use Rattle.scenario_run.specs.Text.{one_more};
ghost use Rattle.replay_run.specs.Counted.{counted};

use pk_types::NoMemory;
use std::alloc::Global;
use std::collections::BTreeMap;
use std::marker::Model;

/// How many outputs each connection was sent.
#[derive(Drop)]
pub struct SentCounts {
    /// A connection that is not here was sent none.
    counts: BTreeMap<u32, u32>,
}

impl Model for SentCounts {
    ghost use Rattle.std.specs.Prelude.{List, ℕ};

    ghost Value = { List (ℕ × ℕ) };

    ghost view = { λ a. a.counts.entries };
}

impl SentCounts {
    /// The counts before the first output. It takes no memory.
    pub fn start(alloc: Global) -> SentCounts
        ensures none { (c : ℕ) → counted result c ≡ 0 }
    {
        SentCounts {
            counts: BTreeMap::new(alloc),
        }
    }

    /// Counts one more output to a connection, and answers its number among those that it is sent,
    /// counted from 1. It is refused where that is not a number of 32 bits.
    pub fn count_one(&mut self, to: u32) -> Result<u32, NoMemory>
        ensures number { IfOk result (λ n. n ≡ counted self.old to + 1) }
        ensures counted { OnOk result (counted self.new ≡ one_more (counted self.old) to) }
    {
        let before = match self.counts.get(&to) {
            Some(count) => *count,
            None => 0,
        };
        let number = before.checked_add(1).ok_or(NoMemory)?;
        self.counts.insert(to, number)?;
        Ok(number)
    }
}
