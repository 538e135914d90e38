//! The plain lists of a history, carried from entry to entry.
//!
//! They hold what stands after the entries so far: who is connected, how much went to each
//! connection, and the agents, temporary authorizations and challenges of now. Nothing of an entry is
//! kept beside that.
#![tactic(auto)]

mod agents;
mod challenges;
mod counts;
mod grants;
mod lists;
mod peers;
mod sent;
mod unlisted;

pub use lists::PlainLists;
