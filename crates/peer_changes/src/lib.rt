//! What an entry changes in what is known of connections.
//!
//! A connection's own event alone changes what is known of it, and whether it is among the live
//! ones. The lemmas show that what was known of a history, changed by an entry, is what is known of
//! the history with that entry.
#![tactic(auto)]

mod known;
mod live;

pub use known::known_after;
pub use live::{no_longer_live, now_live};
