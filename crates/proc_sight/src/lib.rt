//! The line of `/proc/PID/stat`, as proc(5) has it: who a process is, and when it started.
#![tactic(auto)]

mod stat;

pub use stat::{StatFault, StatLine, read_stat};
