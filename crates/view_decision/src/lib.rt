//! The decision on a subject's facts, and the verdict on an agent's return, over any view of a
//! history.
//!
//! The decision is the one that the definitions take: by uid 0, by the value of the action, by a
//! temporary authorization that is live, or by an action that implies this one and is allowed by
//! itself. Taking it needs no memory; a verdict takes memory.
#![tactic(auto)]

mod annotations;
mod decide;
mod implying;
mod order;
mod returns;

pub use decide::decision;
pub use returns::return_verdict;
