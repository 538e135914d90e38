//! The reading half of a connection: what each of its messages asks is handed in to the authority
//! that the connections share, between the beginning and the end of the connection. It may look at
//! the process that an event names first.
//!
//! The messages come through an [`Inbox`], which may hold the first of their bytes already. Both halves
//! share the journal and the desk at which the answers are written.
#![tactic(auto)]

mod common;
mod ends;
mod handing;
mod inbox;
mod reading;

pub use common::Common;
pub use ends::ReaderEnd;
pub use inbox::Inbox;
pub use reading::read_connection;
