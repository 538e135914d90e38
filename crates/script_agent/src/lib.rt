//! The agent program with its task: an authentication agent that answers its challenges by rules.
//!
//! [`attend`] registers for a session at the door of the authority and meets a number of challenges.
//! Where a rule names a user, it tells the authority over a second link, the helper's, that this user
//! was authenticated. What it wrote and printed is a definition over plain lists
//! (`specs/Challenges.antt`, `specs/Stories.antt`, `specs/Runs.antt`).
#![tactic(auto)]

mod asking;
mod attending;
mod line;
mod meeting;
mod status;
mod task;
mod top;
mod waiting;

pub use attending::attend;
pub use status::AgentStatus;
pub use task::{MAX_COUNT, Task};
pub use top::script_agent;
