//! The run of one connection over a source and a sink: messages in, answers out.
//!
//! What the run hands in and what it writes is a definition over plain lists (`specs/Handed.antt`,
//! `specs/Bytes.antt`, `specs/Ends.antt`).
#![tactic(auto)]

mod ends;
mod running;
mod served;
mod turning;
mod writing;

pub use ends::PipeEnd;
pub use running::run_pipe;
