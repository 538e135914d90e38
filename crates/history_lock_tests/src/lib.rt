//! Checks of the lock that counts its history, at a small machine: what two threads add stands in
//! the one history, each item once and in its order; and all are told the one cause of the end.
#![tactic(auto)]

mod ending;
mod tally;
mod two;

pub use ending::{call_behind_the_end, end_and_close, end_beside};
pub use tally::{Entry, Op, Refusal, Tally};
pub use two::{add_all, added_by_two};

#[cfg(test)]
mod tests;
