//! The authority on one thread: each event is one entry of its journal, with the answers that the
//! definitions give.
//!
//! Beside the journal the authority keeps its state: who is connected, which agents are registered,
//! which challenges are pending and which temporary authorizations have not expired. It is carried
//! on with each entry, so that no answer searches the journal.
#![tactic(auto)]

mod authority;
mod collecting;
mod copies;
mod entering;
mod halt;
mod unlisting;

pub use authority::{Authority, LoadStepRefused, StepRefused, UnlistRefused};
pub use authority_model::Limits;
pub use collecting::{Batch, CollectStepRefused};
pub use halt::{Fullness, Halt};
