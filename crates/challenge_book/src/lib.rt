//! The pending challenges of an authority, and the change of them that an entry makes.
//!
//! They stand in the order of opening, and each is found by its cookie, by the serial that its agent
//! was asked with, or by the cancellation id of its check. A change is staged first, which takes all
//! the memory that it needs, and then applied, which takes none. Contracts see the list of the
//! challenges and what is staged; how they are indexed does not show.
#![tactic(auto)]

mod book;
mod filed;
mod indexed;
mod indexes;
mod rows;
mod user_counts;

pub use book::ChallengeBook;
pub use indexed::MAX_CHALLENGES;
