// Why the lock refuses.
use crate::machine::EndCause;

/// Why a call was refused. The operation is handed back.
#[derive(Drop)]
pub enum CallRefused<O, F> {
    /// The lock has ended, by this cause.
    Ended { cause: EndCause, op: O },
    /// The machine refused the operation.
    Machine { refusal: F, op: O },
}

/// Why no pass was made.
#[derive(Clone, Copy, PartialEq, Eq, Debug)]
pub enum AdmitRefused {
    /// All 1,048,576 passes that a lock has were made.
    Full { admitted: u32 },
}
