//! The table of connections: who connected with which uid, which process each announced, where the
//! outputs to each stand in the journal, and how many of these each other connection has collected.
//!
//! An entry is taken in two steps: `stage` takes all memory that it needs, and may be refused;
//! `apply_entry` then carries the table on by it and takes none. Contracts say that the table
//! stands for a history as the definitions see it, and that of the history with one entry more.
#![tactic(auto)]

mod book;
mod counts;
mod live;
mod next;
mod places;
mod rows;

pub use book::PeerBook;
