//! The text of scenarios: their lines, and the lines that answer them.
//!
//! A scenario is read line by line, and each line says one [`Step`]. Each output of the authority
//! is one answer line.
#![tactic(auto)]

mod answer;
mod caller_lines;
mod check_options;
mod draft_lines;
mod escape;
mod fault;
mod first_word;
mod lines;
mod skipped;
mod step;
mod subjects;
mod verdict;
mod words;

pub use answer::{answer_line, answer_text};
pub use fault::{LineFault, LineKind};
pub use lines::{MAX_LINE, read_line};
pub use skipped::skipped_text;
pub use step::Step;
