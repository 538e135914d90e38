//! Indexes of a policy and of a world, which are made once for each load: the implicit value of an
//! action for a user, and the rows of the world, are found in them without a walk over all of them.
//!
//! That of a policy has the place of each action id, the places of the rules with each identity glob
//! that has neither `*` nor `?`, and the places of the rules with another identity glob. So a look-up
//! tries only the rules that name the user or one of its groups, and those with a pattern. It answers
//! what a walk over all rules would, and takes no memory.
#![tactic(auto)]

mod book;
mod build;
mod globs;
mod implicit;
mod index;
mod numbers;
mod rows;
mod search;
mod texts;
mod world_build;
mod world_index;

pub use book::Rulebook;
pub use implicit::Found;
pub use index::RuleIndex;
pub use world_index::WorldIndex;
