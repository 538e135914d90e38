//! The opening of a D-Bus connection at its server's side: the authentication is read from a
//! source and answered into a sink, until the messages begin (D-Bus Specification,
//! "Authentication Protocol").
//!
//! The bytes come through a [`source_buffer::MessageBuffer`]. What was read behind `BEGIN` stays in
//! it, and is the beginning of the first message.
#![tactic(auto)]

mod ends;
mod feeding;
mod opening;

pub use ends::Opening;
pub use opening::open_link;
