//! One connection of the concurrent service: the handshake, and then a reader and a writer beside
//! each other, over one journal that other connections share. It may look at the processes that its
//! messages name.
#![tactic(auto)]

mod body;
mod connection;
mod ends;
mod halves;
mod live;
mod opening;

pub use connection::serve_connection;
pub use ends::{End, LiveEnd};
pub use live::serve_live_connection;
