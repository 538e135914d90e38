//! What each event is answered, and what it changes, by look-ups of the history before it.
//!
//! The answers are those of `authority_model`'s Answers, and the changes those of its Changes. Both are
//! made where an event is told apart, over any `JournalView`: nothing here keeps a history, or walks
//! one.
#![tactic(auto)]

mod answered;
mod asking;
mod calls;
mod cancelling;
mod checking;
mod ending;
mod events;
mod granting;
mod permitting;
mod plain_calls;
mod presence;
mod registering;
mod replies;
mod responding;
mod returning;

pub use answered::Answered;
pub use asking::Occasion;
pub use events::{answer, answer_load};
