//! Keys of subjects as keys of an index.
//!
//! A key holds the id of its session as bytes: its own where it stands in the index, and borrowed where
//! it is looked up, so a look-up takes no memory. Two such keys are equal exactly where the keys that
//! they stand for are one. The lemmas say what an index whose rows stand under keys of their own finds
//! and keeps, and `is_unlisted` what a load ends.
#![tactic(auto)]

mod keys;
mod loading;

pub use keys::KeyOf;
pub use loading::{is_load, is_unlisted};
