// A stretch of places.
ghost use Rattle.std.specs.Prelude.{◌≡◌, ◌≢◌, ◌<◌, ◌≤◌, ℕ, true, false};

/// The places from one up to another.
#[derive(Clone, Copy)]
pub struct Stretch {
    pub from: usize,
    pub to: usize,
}

impl Stretch {
    /// Whether these places lie within it.
    #[inline(always)]
    pub fn holds(self, from: usize, to: usize) -> bool
        ensures { result ≡ true → (self.from ≤ from) × (to ≤ self.to) }
    {
        self.from <= from && to <= self.to
    }

    /// The stretch of good places after one is put anew. A good one that stands right before it
    /// joins it. One that is not good is left out, with all before it.
    #[inline(always)]
    pub fn put(self, place: usize, is_good: bool) -> Stretch
        requires { place < 64 }
        ensures others { (other : ℕ) → result.from ≤ other → other < result.to → other ≢ place → (self.from ≤ other) × (other < self.to) }
        ensures left_out { is_good ≡ false → place < result.from }
    {
        let next = place + 1;
        let from = if is_good {
            if next == self.from { place } else { self.from }
        } else {
            self.from.max(next)
        };
        Stretch { from, to: self.to }
    }
}
