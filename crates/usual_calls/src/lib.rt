//! What the messages of a connection ask, one after another.
//!
//! [`next_event`] reads the next message and says what it asks. A check in its usual form is read
//! straight from its bytes: its header is compared with that of the check that was read last, since
//! a client writes the same header each time. Every other message is read part by part.
#![tactic(auto)]

mod checks;
mod fronts;
mod next;
mod subjects;
mod usual;

pub use next::{NextEvent, next_event};
pub use usual::Usual;
