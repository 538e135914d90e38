// Where calls wait for their turn.
use crate::woken::{PLACES, Woken};
use std::array;
use std::sync::Condvar;

/// The places at which calls wait.
#[derive(Drop)]
pub struct Turns {
    places: [Condvar; PLACES as usize],
}

impl Turns {
    /// Nobody waits.
    pub fn new() -> Turns {
        Turns {
            places: array::from_fn(|_| Condvar::new()),
        }
    }

    /// Where calls wait for a number.
    pub fn of(&self, number: u32) -> &Condvar {
        &self.places[(number % PLACES) as usize]
    }

    /// Wakes these.
    pub fn wake(&self, woken: Woken) {
        if woken.is_nobody() {
            return;
        }
        for (place, turn) in (0..PLACES).zip(&self.places) {
            if woken.has(place) {
                turn.notify_all();
            }
        }
    }

    /// Wakes all that wait.
    pub fn wake_all(&self) {
        for turn in &self.places {
            turn.notify_all();
        }
    }
}
