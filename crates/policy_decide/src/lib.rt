//! The implicit value of an action for a user: its default, unless a rule overrides it
//! (pklocalauthority(8), "Evaluation Order").
//!
//! A user has identity places: its groups in the order of its row, and then itself. The last place
//! at which a rule matches decides, and there the last rule. So both are walked from the last to
//! the first. Nothing here takes memory.
#![tactic(auto)]

mod places;
mod rules;
mod values;

pub use rules::{Rule, matches_at};
pub use values::{implicit, value_by};
