//! What a connection is sent and was not written yet.
//!
//! [`Outbox`] keeps the messages of outputs, so that many of them go with one write.
#![tactic(auto)]

mod outbox;

pub use outbox::Outbox;
