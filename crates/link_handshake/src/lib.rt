//! The authentication protocol of a D-Bus connection over a local socket, both sides of it: the
//! mechanism EXTERNAL alone (D-Bus Specification, "Authentication Protocol").
//!
//! Each side is fed a byte at a time, and takes no memory.
#![tactic(auto)]

mod answer;
mod client;
mod digits;
mod line;
mod reply;
mod server;

pub use client::{ClientShake, ClientStep, client_first};
pub use reply::{ReplyLine, reply_bytes};
pub use server::{Handshake, ShakeFault, ShakeReply, ShakeStep};
