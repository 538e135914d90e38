//! The authority without its journal: what answering looks things up in.
//!
//! A desk keeps four tables (connections, agents, temporary authorizations, pending challenges), the
//! load in force with its indexes, and a few counts. Together they stand for a history of entries. The
//! memory that an entry needs is taken in all four tables or in none, that of a load's indexes before,
//! and then they are carried on by the entry, so that a refusal leaves everything as it was.
#![tactic(auto)]

mod counts;
mod desk;
mod numbers;
mod tables;
mod view;

pub use counts::DeskCounts;
pub use desk::{Desk, DeskLoadRefused, DeskRefused};
pub use numbers::DeskNumbers;
pub use tables::Tables;
pub use view::{DeskView, MAX_DESK_ENTRIES};
