//! The command lines of the clients, each read with `clap` as a simple command: what `pkcheck` is to
//! check and at which door; and the doors that the agent program dials, the session that it registers
//! for, its rule file, and how many challenges it meets.
#![tactic(auto)]

mod agent;
mod check;
mod options;
mod words;

pub use agent::{AgentPlan, MAX_COUNT, read_agent};
pub use check::{CheckPlan, read_check};
pub use words::WordsFault;
