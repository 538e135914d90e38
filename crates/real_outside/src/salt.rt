// Random words.
use pk_outside::Salt;
use rand::RngExt;
use rand::rngs::StdRng;
use rand_core::SeedableRng;

/// Random words of a generator of its own.
#[derive(Drop)]
pub struct RandomSalt {
    words: StdRng,
}

impl RandomSalt {
    /// A giver whose generator is seeded with words of this one. It takes no memory.
    pub(crate) fn seeded(words: &mut StdRng) -> RandomSalt {
        RandomSalt {
            words: StdRng::from_rng(words),
        }
    }
}

impl Salt for RandomSalt {
    ghost use Rattle.std.specs.Prelude.{None};

    ghost left = { λ _. None };

    ghost gave = { λ _. None };

    fn word(&mut self) -> u128 {
        self.words.random()
    }
}
