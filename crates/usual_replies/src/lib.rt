//! The messages that the authority sends, put at the end of bytes.
//!
//! [`put_message_of`] puts each output's message. Most replies to checks, which are most of what is
//! sent, are put straight as bytes; each other message is made by `authority_messages::message_of`.
#![tactic(auto)]

mod putting;
mod verdict_bytes;

pub use putting::put_message_of;
