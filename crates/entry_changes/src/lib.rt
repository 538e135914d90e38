//! What an entry of the journal changes, and what is known of a connection.
//!
//! The definitions in `specs/` say what each event changes among the agents, the temporary
//! authorizations and the pending challenges, by what stands before it in the history, and what a
//! change makes of a list of these. They say it before the event is answered, so that answering can
//! hand its change on and no later step has to find it again.
#![tactic(auto)]

mod change;
mod peer;

pub use change::{AgentChange, ChallengeChange, EntryChange, GrantChange, PlaceList};
pub use peer::Peer;
