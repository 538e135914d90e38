//! What is looked up of a history, whichever way it is kept.
//!
//! `JournalView` is a trait of look-ups: who is connected, which agent is in force, which challenge
//! is pending, which temporary authorization is kept, what is loaded. Each look-up says what it tells
//! by one record of values, `Seen`, and `IsSeenOf` says whose history that is. What follows for a
//! subject stands here once, over any view, and what is known of a key by its row. Nothing here takes
//! memory.
#![tactic(auto)]

mod agents;
mod counts;
mod keys;
mod names;
mod rows;
mod subjects;
mod view;

pub use agents::agent_for;
pub use counts::ViewCounts;
pub use keys::facts_of_key;
pub use subjects::facts;
pub use view::JournalView;
