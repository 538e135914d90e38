//! Laws about dead and live rules, each the clause of a function that does nothing.
#![tactic(auto)]

mod removing;

pub use removing::{dead_rules_matter_not, live_rules_matter};
