//! The counted bytes of a journal's entries and of the loads that they name.
//!
//! The rule stands in `authority_model` (`specs/Costs.antt`), one definition for each type that is
//! counted. Here each of these types is `Counted` by a sum of the same parts. Nothing takes memory,
//! nothing is copied, and each item of a list is visited once.
#![tactic(auto)]

mod cost;
mod counted;
mod entry;
mod load;

pub use cost::MAX_COST;
pub use entry::cost_of_entry;
pub use load::cost_of_load;
