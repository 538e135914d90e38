// How the loader ends.
use history_lock::EndCause;

/// How the loader ended.
#[derive(Clone, Copy, Debug, PartialEq, Eq)]
pub enum LoaderEnd {
    /// It collected StopWanted.
    Stopped,
    /// The lock has ended, by this cause.
    Ended { cause: EndCause },
}
