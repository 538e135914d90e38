//! A buffer over a source that gives its bytes in any pieces: it gives line after line, or reads until
//! so many bytes are there as the caller awaits.
#![tactic(auto)]

mod buffer;
mod filling;
mod lines;

pub use buffer::SourceBuffer;
pub use filling::Filled;
pub use lines::LineRead;

/// A buffer from which lines are taken.
pub type LineReader = SourceBuffer;

/// A buffer from which messages are taken.
pub type MessageBuffer = SourceBuffer;
