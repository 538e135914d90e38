//! The client program `pkcheck`: whether a process may do an action, as the authority behind a door
//! answers it.
//!
//! [`pkcheck`] dials the door, shakes hands, asks one CheckAuthorization, reads messages until the
//! reply to it, hangs up, and writes what the reply tells. What its status says is a definition over
//! the words, the bytes that were read and the bytes that were written (`specs/Checks.antt`).
#![tactic(auto)]

mod asking;
mod reply;
mod status;
mod telling;
mod top;

pub use reply::Reply;
pub use status::CheckStatus;
pub use top::pkcheck;
