//! The command line of the agent program.

mod command;
mod reading;

pub use reading::{AgentPlan, MAX_COUNT, read_agent};
