//! Key files, as `.pkla` files and the files of localauthority.conf.d are (pklocalauthority(8),
//! "Directory Structure" and "Administrator Authentication"): groups of keys with values, and the
//! items of values that are lists.
#![tactic(auto)]

mod escape;
mod fault;
mod grouping;
mod groups;
mod line;
mod listing;
mod reading;
mod slices;

pub use fault::{KeyFault, KeyFaultKind};
pub use groups::{Groups, GroupsList, KeyGroup};
pub use listing::items;
pub use reading::{MAX_KEY_FILE, read};
pub use slices::trimmed;
