// The calls of an object in memory, and those of them that are to fail.
ghost use Rattle.std.specs.Prelude.{◌≡◌, ◌≤◌, true, false};
ghost use Rattle.pk_outside.specs.Causes.{Rose};
ghost use Rattle.memory_outside.specs.Memory.{fails_next, one_call};

use std::marker::Model;

/// Counts the calls of an object in memory, fails those with the listed numbers, and counts these
/// faults. The first call has the number 1.
#[derive(Drop)]
pub struct Calls {
    made: u64,
    faults: u64,
    failing: Vec<u64>,
}

impl Model for Calls {
    ghost use Rattle.memory_outside.specs.Memory.{Counted};

    ghost Value = { Counted };

    ghost view = { λ c. record { made = c.made; faults = c.faults; failing = c.failing.items } };
}

impl Calls {
    /// No call was made yet.
    pub fn failing_at(failing: Vec<u64>) -> Self
        ensures counts { result ≡ record { made = 0; faults = 0; failing = failing.items } }
    {
        Calls {
            made: 0,
            faults: 0,
            failing,
        }
    }

    /// How many calls failed.
    pub fn faults(&self) -> u64
        ensures faults { result ≡ self.now.faults }
    {
        self.faults
    }

    /// Whether the next call is one that is to fail.
    pub(crate) fn is_failing(&self) -> bool
        ensures failing { result ≡ fails_next self.now }
    {
        let number = self.made.saturating_add(1);
        self.failing.contains(&number)
    }

    /// Counts a call that did not fail.
    pub(crate) fn pass(&mut self)
        ensures counted { self.new ≡ one_call self.old false }
    {
        self.made = self.made.saturating_add(1);
    }

    /// Counts a call that failed, and its fault.
    pub(crate) fn fail(&mut self)
        ensures counted { self.new ≡ one_call self.old true }
        ensures later { self.old.faults ≤ self.new.faults }
        ensures rose { Rose self.old.faults self.new.faults }
    {
        self.made = self.made.saturating_add(1);
        self.faults = self.faults.saturating_add(1);
    }
}
