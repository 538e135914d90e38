//! A journal in segments: full segments are handed out as text and forgotten.
//!
//! The tables of the desk stay in memory, so that each event is answered by the whole history. The entries
//! and the loads are kept only until their segment is written. `specs/Text.antt` says what the text of a
//! segment is, and `specs/Segments.antt` when it is written.
#![tactic(auto)]

mod pieces;
mod segment;
mod segmented;
mod text;

pub use segment::{MAX_SEGMENT_BYTES, Segment};
pub use segmented::{MAX_ENTRIES, MAX_OUTPUTS, SegmentRefused, Segmented};
