//! A view of a history by plain lists that are borrowed.
//!
//! Each look-up walks a list. It serves where a history is at hand as lists, and as a second opinion
//! on faster views: whatever is proved over every view holds over this one.
#![tactic(auto)]

mod among;
mod rows;
mod view;

pub use rows::{PeerRow, SentRow};
pub use view::PlainView;
