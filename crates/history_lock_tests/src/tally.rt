// A small machine: what callers added, in order.
ghost use Rattle.std.specs.Prelude.{◌≡◌, ◌≤◌, [], length};

use history_lock::{Machine, Woken};
use std::alloc::Global;
use std::marker::Model;

/// What a caller added.
#[derive(Clone, Copy, PartialEq, Eq, Debug)]
pub struct Entry {
    pub caller: u32,
    pub amount: u32,
}

/// What a caller asks for.
#[derive(Clone, Copy, PartialEq, Eq, Debug)]
pub enum Op {
    /// Adds an amount, which is not 0.
    Add(u32),
    /// Adds an amount, which is not 0, once there are so many entries.
    AddAfter { amount: u32, entries: u64 },
}

impl Op {
    ghost use Rattle.history_lock_tests.specs.Tallies.{amount_of};

    /// The amount.
    pub fn amount(&self) -> u32
        ensures { result ≡ amount_of self.now }
    {
        match self {
            Op::Add(amount) => *amount,
            Op::AddAfter { amount, entries: _ } => *amount,
        }
    }
}

/// Why the tally refuses.
#[derive(Clone, Copy, PartialEq, Eq, Debug)]
pub enum Refusal {
    /// The amount is 0.
    Nothing,
    /// There are 1,048,576 entries.
    Full,
    /// Memory ran out.
    NoMemory,
}

/// How many entries a tally has at most.
const MOST_ENTRIES: usize = 1_048_576;

/// What callers added, in order. Contracts see it as the list of the entries.
#[derive(Drop)]
pub struct Tally {
    log: Vec<Entry>,
}

impl Model for Tally {
    ghost use Rattle.std.specs.Prelude.{List, ◌≤◌, length};
    ghost use Rattle.history_lock_tests.specs.declared.tally.Entry.{Entry};

    ghost Value = { List Entry };

    ghost view = { λ t. t.log.items };

    ghost invariant = { λ t. length t.log.items ≤ 1048576 };
}

impl Tally {
    /// A tally with no entry.
    pub fn new(alloc: Global) -> Tally
        ensures { result ≡ [] }
    {
        Tally {
            log: Vec::new(alloc),
        }
    }

    /// The entries.
    pub fn entries(&self) -> &[Entry]
        ensures { result.now ≡ self.now }
    {
        self.log.as_slice()
    }
}

impl Machine for Tally {
    ghost use Rattle.std.specs.Prelude.{◌≡◌, ◌≤◌, length};
    ghost use Rattle.history_lock_tests.specs.Tallies.{IsReady, Gives, Refuses, Fits};

    type Op = Op;

    type Reply = u64;

    type Refusal = Refusal;

    type Item = Entry;

    ghost entries = { λ t. t };

    ghost caller_of = { λ e. e.caller };

    ghost legal = { λ list. length list ≤ 1048576 };

    ghost is_ready = { λ n op list. IsReady op list };

    ghost gives = { Gives };

    ghost refuses = { λ n op list refusal. Refuses op list refusal };

    ghost awaited = { λ op. 0 };

    ghost fits = { Fits };

    fn apply(&mut self, caller: u32, op: Op) -> Result<u64, (Refusal, Op)> {
        let amount = op.amount();
        if amount == 0 {
            return Err((Refusal::Nothing, op));
        }
        let at = self.log.len();
        if at >= MOST_ENTRIES {
            return Err((Refusal::Full, op));
        }
        match self.log.push(Entry { caller, amount }) {
            Ok(()) => Ok(at as u64),
            Err(_) => Err((Refusal::NoMemory, op)),
        }
    }

    fn ready(&self, _caller: u32, op: &Op) -> bool {
        match op {
            Op::Add(_) => true,
            Op::AddAfter { amount: _, entries } => *entries <= self.log.len() as u64,
        }
    }

    fn awaits(_op: &Op) -> u32 {
        0
    }

    fn woken(&self) -> Woken {
        Woken::nobody().with(0)
    }

    fn woken_others(&self) -> Woken {
        Woken::nobody().with(0)
    }

    ghost use Rattle.std.proofs.Common.{arith};

    ghost begins = { Prim.omega arith };

    ghost bounded = { λ list h. Prim.omega arith };

    ghost use Rattle.history_lock_tests.specs.Tallies.{fits_lasts};

    ghost lasts = { fits_lasts };
}
