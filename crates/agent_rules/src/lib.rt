//! The rule file of the agent program: which challenges it meets as which user, and which it
//! dismisses or fails.
//!
//! A line of the file is `GLOB user:UID`, `GLOB dismiss` or `GLOB fail`. The first line whose glob has
//! the action of a challenge decides.
#![tactic(auto)]

mod line;
mod rules;

pub use line::{Handling, Rule};
pub use rules::{MAX_RULE_FILE, MAX_RULES, RuleFault, Rules};
