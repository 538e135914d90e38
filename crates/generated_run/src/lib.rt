//! A run of many checks that is generated from a count alone, and its totals.
//!
//! The items of the run are a definition over plain lists (`specs/Run.antt`): a setup of eight
//! users with an agent each, and then the checks, each with its dialogue. The run is proved to have
//! these items, and its summary to be theirs (`specs/Summaries.antt`).
#![tactic(auto)]

mod asked;
mod events;
mod run;
mod setup;
mod summary;
mod texts;

pub use run::generate;
pub use summary::{Summary, summary_line};
