//! A load: the policy and the world of a tree of files, with what was skipped.
//!
//! `load` works on one thread. `load_beside` parses the policy files by several, and gives the same.
#![tactic(auto)]

mod beside;
mod files;
mod limits;
mod loading;
mod order;
mod refused;
mod tables;

pub use beside::load_beside;
pub use files::{
    Finding, Joined, MAX_FILES, MAX_POLICY_BYTES, ReadFiles, TurnFile, file_count, find, find_each,
    join, read_files,
};
pub use limits::{MAX_ACTIONS, MAX_RULES};
pub use loading::load;
pub use order::{FileKind, Turn, below, names_at, read_at, turns};
pub use refused::{LoadLimit, LoadRefused};
