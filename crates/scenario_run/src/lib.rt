//! A run of scenario lines: the draft of the next load, and the journal that they are entered into.
//!
//! The journal (`Journal`) is one that is kept whole, as that of `Authority`, or one whose full segments are
//! handed out to a file (`SegmentedJournal`).
//!
//! What a line makes of a scenario is a definition over plain lists (`specs/Scene.antt`); the
//! run is the code's own, and its calls are proved to be that definition.
#![tactic(auto)]

mod action_counts;
mod annotations;
mod draft;
mod journal;
mod rows;
mod scenario;
mod segmented;
mod texts;
mod whole;

pub use journal::{Journal, NoFile, Refused};
pub use scenario::{LineEffect, LineStop, ScenarioRun};
pub use segmented::SegmentedJournal;
