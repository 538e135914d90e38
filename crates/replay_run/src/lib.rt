//! The run of a scenario, line by line: its answer lines, or the audit text of the journal that it makes.
//!
//! What a run makes of its lines is a definition over plain lists (`specs/Replay.antt`). What is
//! written of it is one choice (`Telling`): the answers of each entry at once, or nothing until the
//! input has ended.
#![tactic(auto)]

mod auditing;
mod ends;
mod first;
mod playing;
mod replaying;
mod sent_counts;
mod skipped;
mod telling;
mod written;

pub use auditing::audit;
pub use ends::ReplayEnd;
pub use first::{first_draft, refused_end};
pub use playing::Playback;
pub use replaying::replay;
pub use sent_counts::SentCounts;
pub use skipped::write_skipped;
pub use telling::Telling;
pub use written::WriteRefused;
