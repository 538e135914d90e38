// Counts that threads raise and wait for, and waits that end.
use std::sync::atomic::{AtomicU64, Ordering};
use std::thread;
use std::time::{Clock, Duration};

/// The most turns of a wait. Each sleeps one millisecond.
const MAX_TURNS: u32 = 10_000;

/// The most turns of a whole run.
pub const TURNS_OF_RUN: u32 = 40_000;

/// A count that threads raise and others wait for.
#[derive(Drop)]
pub struct Count {
    reached: AtomicU64,
}

impl Count {
    /// A count of 0.
    pub fn new() -> Count {
        Count {
            reached: AtomicU64::new(0),
        }
    }

    /// Raises it.
    pub fn add(&self, more: u64) {
        self.reached.fetch_add(more, Ordering::SeqCst);
    }

    /// Waits until it has reached so much, and answers whether it has. The wait ends after so many
    /// turns.
    pub fn reaches_within<R: Clock>(&self, rt: &R, wanted: u64, turns: u32) -> bool {
        for _turn in 0..turns {
            if self.reached.load(Ordering::SeqCst) >= wanted {
                return true;
            }
            thread::sleep(rt, Duration::from_millis(1));
        }
        self.reached.load(Ordering::SeqCst) >= wanted
    }

    /// The same, after at most 10,000 turns.
    pub fn reaches<R: Clock>(&self, rt: &R, wanted: u64) -> bool {
        self.reaches_within(rt, wanted, MAX_TURNS)
    }
}
