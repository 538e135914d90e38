// Whom an entry wakes.
ghost use Rattle.std.specs.Prelude.{ℕ};
ghost use Rattle.history_lock.specs.Waking.{Wakes};

/// At how many places calls wait.
pub(crate) const PLACES: u32 = 128;

/// Whom an entry wakes, among those that it has made ready.
#[derive(Clone, Copy)]
pub(crate) enum Whom {
    /// All.
    All,
    /// All but those that wait for the number of the entry's own caller.
    Others,
}

/// Whom an entry wakes. Calls wait at 128 places: one that waits for a number, at the place that is
/// the rest of this number by 128. All that wait at a place are woken together.
#[derive(Clone, Copy)]
pub struct Woken {
    places: u128,
}

impl Woken {
    /// Nobody.
    pub fn nobody() -> Woken {
        Woken { places: 0 }
    }

    /// These, and those that wait for a number.
    pub fn with(self, number: u32) -> Woken
        ensures wakes { Wakes result number }
        ensures keeps { (other : ℕ) → Wakes self other → Wakes result other }
    {
        Woken {
            places: self.places | 1 << (number % PLACES),
        }
    }

    /// These, and the others.
    pub(crate) fn and(self, others: Woken) -> Woken
        ensures first { (number : ℕ) → Wakes self number → Wakes result number }
        ensures second { (number : ℕ) → Wakes others number → Wakes result number }
    {
        Woken {
            places: self.places | others.places,
        }
    }

    /// Whether nobody is among them.
    pub(crate) fn is_nobody(self) -> bool {
        self.places == 0
    }

    /// Whether those who wait at a place are among them.
    pub(crate) fn has(self, place: u32) -> bool {
        self.places >> (place % PLACES) & 1 == 1
    }
}
