//! The D-Bus messages of the other sides: a client's calls and what they are answered, and what an
//! agent is asked and replies.
//!
//! A client writes its calls by [`call_bytes`] and reads the replies by [`answer_of`]. An agent reads
//! BeginAuthentication by [`begin_of`] and replies by [`agent_reply`]. The laws in [`laws`] say that
//! each side reads what the other one wrote.
#![tactic(auto)]

mod agent;
mod answer;
mod arguments;
mod calls;
pub mod laws;

pub use agent::{AgentBegin, AgentReply, agent_reply, begin_of};
pub use answer::{ClientAnswer, answer_of};
pub use calls::{call_bytes, call_is_too_long};
