//! An audit of a journal: whether each entry is as it must be after those before it.
//!
//! The audit goes through the entries with the plain lists of the history so far, answers each event
//! anew, and holds the answer against the one that was written down. It stands on no table of the
//! authority.
#![tactic(auto)]

mod answering;
mod auditing;
mod clause;
mod judging;
mod laws;
mod next_load;
mod stepping;
mod yes;

pub use auditing::{Finding, audit};
pub use clause::Clause;
pub use laws::{first_fault_is_one, legal_has_no_fault};
