//! The files of the tables of a world: users as passwd(5) has them, groups as group(5) has them,
//! sessions, and processes.
//!
//! Each reader gives the rows of a file or its first fault, with the number of the faulty line.
#![tactic(auto)]

mod fault;
mod fields;
mod groups;
mod kept;
mod limits;
mod memberships;
mod names;
mod processes;
mod sessions;
mod table;
mod users;

pub use fault::TableFault;
pub use groups::read_group;
pub use limits::{MAX_FILE, MAX_NAME, MAX_ROWS};
pub use processes::read_processes;
pub use sessions::read_sessions;
pub use users::read_passwd;
