// Clocks and random words in memory, which give what they were made with.
ghost use Rattle.std.specs.Prelude.{◌≡◌, ◌<◌, ◌≤◌, ◌^◌, [], All, map, length};
ghost use Rattle.memory_outside.specs.Readings.{capped};
ghost use Rattle.memory_outside.specs.Tally.{count_in};

use crate::tally::Tally;
use pk_outside::{Clock, Salt};
use pk_types::List;
use std::alloc::Global;
use std::marker::Model;

/// The latest reading of a clock.
const LATEST: u64 = 1 << 62;

/// The readings of a clock, each at most 2^62. Contracts see them as a list.
#[derive(Drop)]
pub struct Readings {
    numbers: Vec<u64>,
}

impl Model for Readings {
    ghost use Rattle.std.specs.Prelude.{ℕ, ◌≤◌, ◌^◌, List, All};

    ghost Value = { List ℕ };

    ghost view = { λ r. r.numbers.items };

    ghost invariant = { λ r. All (λ number. number ≤ 2 ^ 62) r.numbers.items };
}

impl Readings {
    /// These readings. One above 2^62 counts as 2^62. It takes no memory.
    pub fn new(numbers: Vec<u64>) -> Self
        ensures readings { result ≡ map capped numbers.items }
    {
        let numbers = capped(numbers);
        Readings { numbers }
    }

    /// No reading. It takes no memory.
    pub fn empty(alloc: Global) -> Self
        ensures none { result ≡ [] }
    {
        Readings {
            numbers: Vec::new(alloc),
        }
    }

    /// The readings.
    pub fn as_slice(&self) -> &[u64]
        ensures readings { result.now ≡ self.now }
        ensures bound { All (λ number. number ≤ 2 ^ 62) self.now }
    {
        self.numbers.as_slice()
    }
}

/// The numbers, each at most 2^62.
fn capped(mut numbers: Vec<u64>) -> Vec<u64>
    ensures each { result.items ≡ map capped numbers.items }
{
    cap(numbers.as_mut_slice());
    numbers
}

/// Makes each number at most 2^62.
fn cap(numbers: &mut [u64])
    ensures each { numbers.new ≡ map capped numbers.old }
{
    for number in numbers.iter_mut() {
        *number = (*number).min(LATEST);
    }
}

/// A clock in memory, which gives its readings, and then 0. It tells all that it gave in every
/// state: its readings are kept, and the zeros behind them are counted by clauses alone.
#[derive(Drop)]
pub struct ListClock {
    readings: Readings,
    at: usize,
    zeros: Tally,
    ghost within: { at ≤ length readings },
    ghost zeros_last: { at < length readings → count_in zeros ≡ 0 },
}

impl ListClock {
    ghost use Rattle.memory_outside.specs.HeldClock.{clock_left, clock_gave, clock_given};

    /// A clock with these readings. It takes no memory.
    pub fn new(readings: Readings) -> Self
        ensures left { clock_left result ≡ readings }
        ensures gave { clock_gave result ≡ [] }
    {
        ListClock {
            readings,
            at: 0,
            zeros: Tally::new(),
        }
    }

    /// A clock without a reading. It takes no memory.
    pub fn empty(alloc: Global) -> Self
        ensures left { clock_left result ≡ [] }
        ensures gave { clock_gave result ≡ [] }
    {
        ListClock::new(Readings::empty(alloc))
    }

    /// Those of its readings that it gave.
    pub fn given(&self) -> &[u64]
        ensures given { result.now ≡ clock_given self.now }
    {
        let (given, _) = self.readings.as_slice().split_at(self.at);
        given
    }
}

impl Clock for ListClock {
    ghost use Rattle.std.specs.Prelude.{Some, ◌++◌, drop, take, replicate};

    ghost left = { λ c. Some (drop c.at c.readings) };

    ghost gave = { λ c. Some (take c.at c.readings ++ replicate (count_in c.zeros) 0) };

    fn now(&mut self) -> u64 {
        let readings = self.readings.as_slice();
        if self.at < readings.len() {
            let reading = readings[self.at];
            self.at += 1;
            return reading;
        }
        self.zeros.count();
        0
    }
}

/// Random words in memory: it gives its words, and then 0. It tells all that it gave in every state,
/// as a clock does.
#[derive(Drop)]
pub struct ListSalt {
    words: List<u128>,
    at: usize,
    zeros: Tally,
    ghost within: { at ≤ length words },
    ghost zeros_last: { at < length words → count_in zeros ≡ 0 },
}

impl ListSalt {
    ghost use Rattle.memory_outside.specs.HeldClock.{salt_left, salt_gave, salt_given};

    /// A giver of these words. It takes no memory.
    pub fn new(words: List<u128>) -> Self
        ensures left { salt_left result ≡ words }
        ensures gave { salt_gave result ≡ [] }
    {
        ListSalt {
            words,
            at: 0,
            zeros: Tally::new(),
        }
    }

    /// A giver of no word. It takes no memory.
    pub fn empty(alloc: Global) -> Self
        ensures left { salt_left result ≡ [] }
        ensures gave { salt_gave result ≡ [] }
    {
        ListSalt::new(List::new(alloc))
    }

    /// Those of its words that it gave.
    pub fn given(&self) -> &[u128]
        ensures given { result.now ≡ salt_given self.now }
    {
        let (given, _) = self.words.as_slice().split_at(self.at);
        given
    }
}

impl Salt for ListSalt {
    ghost use Rattle.std.specs.Prelude.{Some, ◌++◌, drop, take, replicate};

    ghost left = { λ s. Some (drop s.at s.words) };

    ghost gave = { λ s. Some (take s.at s.words ++ replicate (count_in s.zeros) 0) };

    fn word(&mut self) -> u128 {
        let words = self.words.as_slice();
        if self.at < words.len() {
            let word = words[self.at];
            self.at += 1;
            return word;
        }
        self.zeros.count();
        0
    }
}
