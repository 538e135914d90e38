//! The service: one authority, the connections to it over the doors of a plan, and its loader, from
//! the first load to the lines that are printed at the end.
#![tactic(auto)]

mod admitting;
mod beginning;
mod causes;
mod ends;
mod lines;
mod opening;
mod running;
mod service;
mod shutting;
mod telling;
mod top;

pub use ends::ServiceEnd;
pub use top::serve;
