// Why a slot stops.
ghost use Rattle.std.specs.Prelude.{◌≡◌};
ghost use Rattle.service_slots.specs.Stops.{stop_after};

use connection_serve::{End, LiveEnd};
use history_lock::EndCause;

/// Why a slot stopped.
#[derive(Clone, Copy, PartialEq, Eq, Debug)]
pub enum SlotStop {
    /// Its door has no link left.
    Closed,
    /// Its door failed.
    DoorFailed,
    /// Its door or the slot itself found no memory.
    NoMemory,
    /// It has served as many connections as it was to serve.
    Served,
    /// The lock has ended, by this cause.
    Ended { cause: EndCause },
}

impl SlotStop {
    /// A connection that the lock ended stops its slot, and no other does.
    pub(crate) fn of_end(end: LiveEnd) -> Option<SlotStop>
        ensures { result ≡ stop_after end }
    {
        match end {
            LiveEnd::Plain(End::Ended { cause }) => Some(SlotStop::Ended { cause }),
            _ => None,
        }
    }
}
