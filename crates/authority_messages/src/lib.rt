//! The D-Bus messages that the authority sends: one for each of its outputs. The builders of values
//! and messages are the client's too.
#![tactic(auto)]

mod actions;
mod calls;
mod containers;
mod details;
mod grants;
pub mod laws;
pub mod limits;
mod lists;
mod message;
pub mod outgoing;
pub mod pairs;
pub mod replies;
pub mod subjects;
pub mod texts;
pub mod values;
mod verdict;

pub use calls::AGENT;
pub use message::message_of;
