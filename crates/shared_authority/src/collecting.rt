// What is collected, and why nothing was.
ghost use Rattle.std.specs.Prelude.{ℕ, Some, IfOk, IfSome, IsSome, OnOk};
ghost use Rattle.history_lock.specs.Known.{Known};
ghost use Rattle.authority_model.specs.declared.journal.Item.{Item};
ghost use Rattle.authority_model.specs.declared.journal.Limits.{Limits};
ghost use Rattle.shared_authority.specs.Journals.{Fits};
ghost use Rattle.shared_authority.specs.Machines.{batch_in};
ghost use Rattle.shared_authority.specs.Passes.{CalledNow, CollectIsRefused, CollectsNow, HadRoom, Tells};

use crate::operation::{Op, Refusal, Reply};
use authority_core::{Batch, Fullness, Halt};
use history_lock::{CallRefused, EndCause};

/// What was collected.
#[derive(Drop)]
pub enum Collected {
    /// Some outputs.
    Batch(Batch),
    /// The connection has departed, and nothing to it is left for this pass.
    Gone,
}

impl Collected {
    /// An empty batch says that the connection has gone.
    pub(crate) fn of_batch(batch: Batch) -> Collected
        ensures { Tells batch result }
    {
        if batch.outputs.is_empty() {
            Collected::Gone
        } else {
            Collected::Batch(batch)
        }
    }
}

/// What is collected by a call that does not wait: None where there is nothing to collect yet.
pub type CollectedNow = Option<Result<Collected, CollectRefused>>;

/// Why nothing was collected.
#[derive(Clone, Copy, Debug, PartialEq, Eq)]
pub enum CollectRefused {
    /// The lock has ended, by this cause.
    Ended { cause: EndCause },
    /// The journal has reached its limit of entries or of bytes. It has this many.
    JournalFull { entries: u64, bytes: u64 },
    NoMemory,
}

impl CollectRefused {
    /// The cause by which a caller ends the lock that refused its Collect. It fits what the caller's
    /// pass knows since.
    pub fn cause(&self) -> EndCause
        ensures fits { (limits : Limits) (v w : Known Item) → CollectIsRefused limits v self.now w → Fits limits result w.history w.made }
    {
        match self {
            CollectRefused::Ended { cause } => *cause,
            CollectRefused::JournalFull { entries, bytes } => EndCause::JournalFull {
                entries: *entries,
                bytes: *bytes,
            },
            CollectRefused::NoMemory => EndCause::NoMemory,
        }
    }
}

/// What the lock answers to a Collect, as what was collected or why nothing was.
pub(crate) fn collected_or_refused(
    answer: Result<Reply, CallRefused<Op, Refusal>>,
) -> Result<Collected, CollectRefused>
    requires { IfOk answer (λ reply. IsSome (batch_in reply)) }
    ensures collects { (limits : Limits) (v w : Known Item) (of : ℕ)
        → CalledNow limits v (Op.Collect of) (Some answer) w
        → CollectsNow limits v of (Some result) w }
    ensures room { (limits : Limits) (v w : Known Item) (of : ℕ)
        → CalledNow limits v (Op.Collect of) (Some answer) w
        → OnOk result (HadRoom limits w.history) }
{
    match answer {
        Ok(reply) => Ok(Collected::of_batch(reply.into_batch())),
        Err(CallRefused::Ended { cause, op }) => {
            drop(op);
            Err(CollectRefused::Ended { cause })
        }
        Err(CallRefused::Machine { refusal, op }) => {
            drop(op);
            match refusal {
                Refusal::Halted(Halt::Full(Fullness { entries, bytes })) => {
                    Err(CollectRefused::JournalFull { entries, bytes })
                }
                Refusal::Halted(Halt::NoMemory) => Err(CollectRefused::NoMemory),
                // Only an Unlist is refused so.
                Refusal::NotListed => Err(CollectRefused::NoMemory),
            }
        }
    }
}

/// What the lock answers to a Collect that does not wait, as what was collected or why nothing was.
pub(crate) fn collected_now(answer: Option<Result<Reply, CallRefused<Op, Refusal>>>) -> CollectedNow
    requires { IfSome answer (λ a. IfOk a (λ reply. IsSome (batch_in reply))) }
    ensures { (limits : Limits) (v w : Known Item) (of : ℕ)
        → CalledNow limits v (Op.Collect of) answer w
        → CollectsNow limits v of result w }
{
    match answer {
        None => None,
        Some(answer) => Some(collected_or_refused(answer)),
    }
}
