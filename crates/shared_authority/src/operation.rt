// What the lock hands to the authority, and what the authority answers.
ghost use Rattle.std.specs.Prelude.{◌≡◌, Some, IsSome};
ghost use Rattle.shared_authority.specs.Machines.{batch_in, event_in, loaded_in, place_in};

use authority_core::{Batch, Halt};
use authority_model::{Event, Loaded};

/// What a connection asks of the authority.
#[derive(Drop)]
pub enum Op {
    /// The entry of an event.
    Step {
        moment: u64,
        salt: u128,
        event: Event,
    },
    /// The entry of the next load.
    Load {
        moment: u64,
        loaded: Loaded,
    },
    /// The entry of the last load without a process.
    Unlist {
        moment: u64,
        pid: u32,
        start: u64,
    },
    /// The outputs to a connection that were not collected yet.
    Collect {
        of: u32,
    },
}

impl Op {
    /// The event that comes back.
    pub(crate) fn into_event(self) -> Event
        requires { IsSome (event_in self) }
        ensures { event_in self ≡ Some result }
    {
        match self {
            Op::Step {
                moment: _,
                salt: _,
                event,
            } => event,
            Op::Load {
                moment: _,
                loaded: _,
            } => unreachable!(),
            Op::Unlist {
                moment: _,
                pid: _,
                start: _,
            } => unreachable!(),
            Op::Collect { of: _ } => unreachable!(),
        }
    }

    /// The load that comes back.
    pub(crate) fn into_loaded(self) -> Loaded
        requires { IsSome (loaded_in self) }
        ensures { loaded_in self ≡ Some result }
    {
        match self {
            Op::Load { moment: _, loaded } => loaded,
            Op::Step {
                moment: _,
                salt: _,
                event: _,
            } => unreachable!(),
            Op::Unlist {
                moment: _,
                pid: _,
                start: _,
            } => unreachable!(),
            Op::Collect { of: _ } => unreachable!(),
        }
    }
}

/// What the authority answers.
#[derive(Drop)]
pub enum Reply {
    /// The place of the entry, counted from 0.
    At(u64),
    /// What was collected.
    Batch(Batch),
}

impl Reply {
    /// The place of the entry.
    pub(crate) fn into_place(self) -> u64
        requires { IsSome (place_in self) }
        ensures { place_in self ≡ Some result }
    {
        match self {
            Reply::At(place) => place,
            Reply::Batch(_) => unreachable!(),
        }
    }

    /// What was collected.
    pub(crate) fn into_batch(self) -> Batch
        requires { IsSome (batch_in self) }
        ensures { batch_in self ≡ Some result }
    {
        match self {
            Reply::Batch(batch) => batch,
            Reply::At(_) => unreachable!(),
        }
    }
}

/// Why the authority refuses.
#[derive(Clone, Copy, Debug, PartialEq, Eq)]
pub enum Refusal {
    /// The journal is full, or memory was refused.
    Halted(Halt),
    /// The last load does not list the process that was to be taken out of it.
    NotListed,
}
