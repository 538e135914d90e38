//! One connection of a client: the handshake, its calls, and the messages that it is sent.
//!
//! A client dials a link, shakes hands by [`shake_hands`], sends by [`send_call`] and [`send_reply`],
//! and reads the messages of the server one after another by [`next_answer`] or [`next_begin`]. What
//! was read and is not taken yet stands in a `MessageBuffer`.
#![tactic(auto)]

mod awaiting;
mod messages;
mod sending;
mod shaking;
mod stop;

pub use messages::{next_answer, next_begin};
pub use sending::{send_call, send_reply};
pub use shaking::shake_hands;
pub use stop::LinkStop;
