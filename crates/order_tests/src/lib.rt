//! Objects that fail at a call or keep what comes back, and orders of calls: what the rows of
//! `checks/rows` cannot show.
#![tactic(auto)]

#[cfg(test)]
mod link_opening_tests;
#[cfg(test)]
mod list_tests;
#[cfg(test)]
mod load_tests;
#[cfg(test)]
mod memory_outside_tests;
#[cfg(test)]
mod message_buffer_tests;
#[cfg(test)]
mod outside_tests;
#[cfg(test)]
mod reader_tests;
#[cfg(test)]
mod station_tests;
