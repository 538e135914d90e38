//! What the change of an entry makes of the lists of a history.
//!
//! `entry_changes` says what an event changes among the agents, the temporary authorizations and the
//! pending challenges, by what stands before it. The lemmas here show that each of these lists with
//! its change is the list of the longer history, and that what is added can be mistaken for nothing
//! that is there. So a table that makes the change stands for the history with the entry. What is
//! known of connections goes on from entry to entry in `peer_book`, whose contract says it. The crate
//! has no functions.
#![tactic(auto)]
