//! Audit texts: a journal with its loads, written line by line, and read again exactly.
//!
//! A text has one spelling for each history. `specs/Audit.antt` says what it is, and `specs/Faults.antt` which
//! line of other bytes is the first faulty one.
#![tactic(auto)]

mod fault;
mod heads;
mod lines;
mod loads;
mod measuring;
mod pieces;
mod putting;
mod reading;
mod writing;

pub use fault::{AuditReadRefused, AuditWriteRefused, LineKind};
pub use pieces::push_item;
pub use reading::{MAX_ENTRIES, read};
pub use writing::write;
