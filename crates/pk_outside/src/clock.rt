// The time, and random words.
ghost use Rattle.std.specs.Prelude.{◌≡◌, ◌≤◌, ◌^◌, ◌∷◌, [], List, ℕ, Option};
ghost use Rattle.pk_outside.specs.Readings.{GivesNext};
ghost use Rattle.pk_outside.specs.Streams.{Got};

/// Tells the time. It can't fail.
pub trait Clock: Drop + Send {
    /// The readings that it will give, where they are told. Behind them it gives 0.
    ghost left: { Self → Option (List ℕ) };

    /// The readings that it gave, where they are told.
    ghost gave: { Self → Option (List ℕ) };

    /// The next reading, in seconds.
    fn now(&mut self) -> u64
        ensures bound { result ≤ 2 ^ 62 }
        ensures next { GivesNext (left self.old) (left self.new) result }
        ensures gave { Got (gave self.old) (gave self.new) (result ∷ []) };
}

/// Gives random words. It can't fail.
pub trait Salt: Drop + Send {
    /// The words that it will give, where they are told. Behind them it gives 0.
    ghost left: { Self → Option (List ℕ) };

    /// The words that it gave, where they are told.
    ghost gave: { Self → Option (List ℕ) };

    /// The next random word.
    fn word(&mut self) -> u128
        ensures next { GivesNext (left self.old) (left self.new) result }
        ensures gave { Got (gave self.old) (gave self.new) (result ∷ []) };
}
