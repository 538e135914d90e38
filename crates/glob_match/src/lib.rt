//! Globs over texts: `*` stands for any run of Unicode scalars, `?` for one, and every other
//! scalar for itself.
//!
//! One walk decides. Where a part of the pattern doesn't fit, it goes back to the last star alone.
#![tactic(auto)]

mod scalar;
mod walk;

pub use walk::matches;
