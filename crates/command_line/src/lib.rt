//! The words of a command line: as texts, as doors `UID:PATH`, and the texts that a program tells of
//! itself when they ask for them.
#![tactic(auto)]

mod door;
mod reading;
mod told;
mod usage;

pub use door::{DoorPath, halves, is_door, read_door};
pub use reading::{WordsRefused, read_texts, words};
pub use told::ProgramTexts;
