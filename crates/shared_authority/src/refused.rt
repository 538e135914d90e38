// Why nothing was entered.
ghost use Rattle.std.specs.Prelude.{◌≡◌, ℕ, IfNone, IfSome, IsSome, None};
ghost use Rattle.history_lock.specs.Known.{Known};
ghost use Rattle.history_lock.specs.Calls.{Refused};
ghost use Rattle.authority_model.specs.declared.event.Event.{Event};
ghost use Rattle.authority_model.specs.declared.journal.Item.{Item};
ghost use Rattle.authority_model.specs.declared.journal.Limits.{Limits};
ghost use Rattle.authority_model.specs.declared.load.Loaded.{Loaded};
ghost use Rattle.shared_authority.specs.Journals.{IsJournal, Fits, caller_of};
ghost use Rattle.shared_authority.specs.Machines.{Refuses, event_in, handed_back, loaded_in};
ghost use Rattle.shared_authority.specs.declared.refused.SubmitUnlistRefused.TheVariants as unlist_refused;
ghost use Rattle.shared_authority.specs.Passes.{SubmitIsRefused, SubmitLoadIsRefused, SubmitUnlistIsRefused};

use crate::operation::{Op, Refusal};
use authority_core::{Fullness, Halt};
use authority_model::{Event, Loaded};
use history_lock::{CallRefused, EndCause};

/// Why an event was refused. It comes back.
#[derive(Drop)]
pub enum SubmitRefused {
    /// The lock has ended, by this cause.
    Ended {
        cause: EndCause,
        event: Event,
    },
    /// The journal has reached its limit of entries or of bytes. It has this many.
    JournalFull {
        entries: u64,
        bytes: u64,
        event: Event,
    },
    NoMemory {
        event: Event,
    },
}

impl SubmitRefused {
    /// The cause by which a caller ends the lock that refused its event. It fits what the caller's
    /// pass knows since.
    pub fn cause(&self) -> EndCause
        ensures fits { (limits : Limits) (v w : Known Item) (event : Event) → SubmitIsRefused limits v event self.now w → Fits limits result w.history w.made }
    {
        match self {
            SubmitRefused::Ended { cause, event: _ } => *cause,
            SubmitRefused::JournalFull {
                entries,
                bytes,
                event: _,
            } => EndCause::JournalFull {
                entries: *entries,
                bytes: *bytes,
            },
            SubmitRefused::NoMemory { event: _ } => EndCause::NoMemory,
        }
    }
}

/// Why the lock refused an event, which comes back.
pub(crate) fn submit_refused(refused: CallRefused<Op, Refusal>) -> SubmitRefused
    requires { IsSome (event_in (handed_back refused)) }
    ensures { (limits : Limits) (v w : Known Item) (moment salt : ℕ) (event : Event)
        → Refused caller_of IsJournal (λ n op list refusal. Refuses limits op list refusal) (Fits limits) v (Op.Step moment salt event) refused w
        → SubmitIsRefused limits v event result w }
{
    match refused {
        CallRefused::Ended { cause, op } => {
            let event = op.into_event();
            SubmitRefused::Ended { cause, event }
        }
        CallRefused::Machine { refusal, op } => {
            let event = op.into_event();
            match refusal {
                Refusal::Halted(Halt::Full(Fullness { entries, bytes })) => {
                    SubmitRefused::JournalFull {
                        entries,
                        bytes,
                        event,
                    }
                }
                Refusal::Halted(Halt::NoMemory) => SubmitRefused::NoMemory { event },
                // Only an Unlist is refused so.
                Refusal::NotListed => SubmitRefused::NoMemory { event },
            }
        }
    }
}

/// Why a load was refused. It comes back.
#[derive(Drop)]
pub enum SubmitLoadRefused {
    /// The lock has ended, by this cause.
    Ended {
        cause: EndCause,
        loaded: Loaded,
    },
    /// The journal has reached its limit of entries or of bytes. It has this many.
    JournalFull {
        entries: u64,
        bytes: u64,
        loaded: Loaded,
    },
    NoMemory {
        loaded: Loaded,
    },
}

impl SubmitLoadRefused {
    /// The cause by which a caller ends the lock that refused its load. It fits what the caller's
    /// pass knows since.
    pub fn cause(&self) -> EndCause
        ensures fits { (limits : Limits) (v w : Known Item) (loaded : Loaded) → SubmitLoadIsRefused limits v loaded self.now w → Fits limits result w.history w.made }
    {
        match self {
            SubmitLoadRefused::Ended { cause, loaded: _ } => *cause,
            SubmitLoadRefused::JournalFull {
                entries,
                bytes,
                loaded: _,
            } => EndCause::JournalFull {
                entries: *entries,
                bytes: *bytes,
            },
            SubmitLoadRefused::NoMemory { loaded: _ } => EndCause::NoMemory,
        }
    }
}

/// Why the lock refused a load, which comes back.
pub(crate) fn load_refused(refused: CallRefused<Op, Refusal>) -> SubmitLoadRefused
    requires { IsSome (loaded_in (handed_back refused)) }
    ensures { (limits : Limits) (v w : Known Item) (moment : ℕ) (loaded : Loaded)
        → Refused caller_of IsJournal (λ n op list refusal. Refuses limits op list refusal) (Fits limits) v (Op.Load moment loaded) refused w
        → SubmitLoadIsRefused limits v loaded result w }
{
    match refused {
        CallRefused::Ended { cause, op } => {
            let loaded = op.into_loaded();
            SubmitLoadRefused::Ended { cause, loaded }
        }
        CallRefused::Machine { refusal, op } => {
            let loaded = op.into_loaded();
            match refusal {
                Refusal::Halted(Halt::Full(Fullness { entries, bytes })) => {
                    SubmitLoadRefused::JournalFull {
                        entries,
                        bytes,
                        loaded,
                    }
                }
                Refusal::Halted(Halt::NoMemory) => SubmitLoadRefused::NoMemory { loaded },
                // Only an Unlist is refused so.
                Refusal::NotListed => SubmitLoadRefused::NoMemory { loaded },
            }
        }
    }
}

/// Why no load without a process was entered.
#[derive(Clone, Copy, Debug, PartialEq, Eq)]
pub enum SubmitUnlistRefused {
    /// The lock has ended, by this cause.
    Ended { cause: EndCause },
    /// The last load does not list the process.
    NotListed,
    /// The journal has reached its limit of entries or of bytes. It has this many.
    JournalFull { entries: u64, bytes: u64 },
    NoMemory,
}

impl SubmitUnlistRefused {
    /// The cause by which a caller ends the lock that refused. It fits what the caller's pass knows
    /// since. None exactly where the process was not listed, and then the lock goes on.
    pub fn cause(&self) -> Option<EndCause>
        ensures fits { IfSome result (λ cause. (limits : Limits) (v w : Known Item) (pid start : ℕ)
            → SubmitUnlistIsRefused limits v pid start self.now w
            → Fits limits cause w.history w.made) }
        ensures passed_over { self.now ≡ unlist_refused.NotListed → result ≡ None }
        ensures else_ends { IfNone result (self.now ≡ unlist_refused.NotListed) }
    {
        match self {
            SubmitUnlistRefused::Ended { cause } => Some(*cause),
            SubmitUnlistRefused::NotListed => None,
            SubmitUnlistRefused::JournalFull { entries, bytes } => Some(EndCause::JournalFull {
                entries: *entries,
                bytes: *bytes,
            }),
            SubmitUnlistRefused::NoMemory => Some(EndCause::NoMemory),
        }
    }
}

/// Why the lock refused to take a process out of the last load.
pub(crate) fn unlist_refused(refused: CallRefused<Op, Refusal>) -> SubmitUnlistRefused
    ensures { (limits : Limits) (v w : Known Item) (moment pid start : ℕ)
        → Refused caller_of IsJournal (λ n op list refusal. Refuses limits op list refusal) (Fits limits) v (Op.Unlist moment pid start) refused w
        → SubmitUnlistIsRefused limits v pid start result w }
{
    match refused {
        CallRefused::Ended { cause, op } => {
            drop(op);
            SubmitUnlistRefused::Ended { cause }
        }
        CallRefused::Machine { refusal, op } => {
            drop(op);
            match refusal {
                Refusal::NotListed => SubmitUnlistRefused::NotListed,
                Refusal::Halted(Halt::Full(Fullness { entries, bytes })) => {
                    SubmitUnlistRefused::JournalFull { entries, bytes }
                }
                Refusal::Halted(Halt::NoMemory) => SubmitUnlistRefused::NoMemory,
            }
        }
    }
}
