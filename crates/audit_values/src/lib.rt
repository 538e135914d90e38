//! How the values of a journal are spelled by words, and read again: those of a load, and those of an entry.
//!
//! Each type has a codec in `specs/`, which says what its words are. A value is written as these words, and
//! read from them alone.
#![tactic(auto)]

mod answers;
mod entry;
mod event;
mod laws;
mod policy;
mod spell;
mod values;
mod world;

pub use laws::{entry_laws, equal_words, load_laws};
pub use spell::Spell;
