//! The authentication agents in force, as a table.
//!
//! The registrations stand in the order in which they came in force, and the one of a subject is found by
//! its key with one look-up. A change is staged first, which takes all memory that it needs, and then
//! carried out with the entry that makes it, which takes none. Contracts see the list of registrations
//! that the definitions speak of, and the change that is staged.
#![tactic(auto)]

mod registry;
mod rows;
mod staged;

pub use registry::AgentRegistry;
