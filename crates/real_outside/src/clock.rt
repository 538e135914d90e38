// The system's clock.
ghost use Rattle.std.specs.Prelude.{◌≤◌, ◌^◌};

use pk_outside::Clock;
use std::time;

/// The greatest moment that a clock gives.
const LAST_MOMENT: u64 = 1 << 62;

/// The system's clock, in seconds since 1970.
///
/// Where it cannot be read it gives its last reading again, and 0 before the first.
#[derive(Drop)]
pub struct SystemClock<'a, R: time::Clock> {
    pub(crate) rt: &'a R,
    pub(crate) last: u64,
    ghost bounded: { last ≤ 2 ^ 62 },
}

impl<'a, R: time::Clock + Sync> Clock for SystemClock<'a, R> {
    ghost use Rattle.std.specs.Prelude.{None};

    ghost left = { λ _. None };

    ghost gave = { λ _. None };

    fn now(&mut self) -> u64 {
        if let Ok(since) = self.rt.since_1970() {
            self.last = since.as_secs().min(LAST_MOMENT);
        }
        self.last
    }
}
