//! The words of `polkitd serve`, and the plan that they name.
#![tactic(auto)]

mod amounts;
mod checking;
mod plan;
mod reading;

pub use amounts::{entries_in, positive};
pub use checking::is_plan;
pub use plan::{DoorList, ServePlan};
pub use reading::{is_root, read_plan};
