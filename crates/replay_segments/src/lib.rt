//! The run of a scenario over a journal in segments: its answer lines, and a file of the segments.
//!
//! The run is that of `replay_run`, line by line. The journal (`scenario_run::SegmentedJournal`) hands its full
//! segments out to a file that a station makes, and keeps the tables alone.
#![tactic(auto)]

mod running;

pub use running::{MAX_PER, replay_segments};
