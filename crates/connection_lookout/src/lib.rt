//! Whether a connection looks at the processes that its events name, and what it does where one of
//! them has ended. A connection that looks has a pass of its own for it: the sighter.
#![tactic(auto)]

mod lookout;
mod unlistings;

pub use lookout::{NoSights, SightFailed, look, meet};
pub use unlistings::{loads_end_grants, unlistings_grow};
