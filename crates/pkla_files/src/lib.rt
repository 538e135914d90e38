//! The `.pkla` files of the local authority (pklocalauthority(8)): the entries of a file, and the
//! order in which the files of several directories are evaluated.
//!
//! Each group of a file is one authorization entry. A file with a faulty group has none, and its
//! first fault is reported.
#![tactic(auto)]

mod directories;
mod entry;
mod fault;
mod file_order;
mod returned;

pub use directories::{Dir, DirList, FileOrder, FilePlace, Root};
pub use entry::entries;
pub use fault::{PklaFault, PklaFaultKind};
pub use file_order::{one_order, order};
