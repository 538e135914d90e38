// What an entry breaks.
use thiserror::Error;

/// What the first faulty entry breaks. Where it breaks more than one, it is the first in this order.
#[derive(Clone, Copy, Debug, PartialEq, Eq, Error)]
pub enum Clause {
    /// A Load names the next load, and the history has it.
    #[error("load")]
    Load,
    /// The moment does not fall and is at most 2^62, and a Collect has the moment of the entry before
    /// it.
    #[error("moment")]
    Moment,
    /// A Collect has the salt 0.
    #[error("salt")]
    Salt,
    /// The outputs are the answers to the event.
    #[error("outputs")]
    Outputs,
    /// Some entry names each load.
    #[error("loads")]
    Loads,
}
