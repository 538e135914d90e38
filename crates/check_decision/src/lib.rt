//! What a decision is, its verdict, who may answer a challenge, and who owns an action: what a check
//! asks of a policy and a world alone, and of no temporary authorization.
//!
//! A decision itself takes no memory. Verdicts and identities take memory.
#![tactic(auto)]

mod answering;
mod decisions;
mod owners;
mod values;
mod verdicts;
mod words;

pub use answering::{allowed, may_answer};
pub use decisions::DecisionRef;
pub use owners::owns;
pub use values::{is_auth, is_keep, is_yes};
pub use verdicts::{granted, no, verdict};
pub use words::has_word;
