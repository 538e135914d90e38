//! The command line of `pkcheck`.

mod command;
mod reading;

pub use reading::{CheckPlan, read_check};
