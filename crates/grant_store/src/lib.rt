//! The temporary authorizations that nothing ended, as a table.
//!
//! They stand by rising number, and an index has the numbers of each subject. Each lives for the same time,
//! so those that have not expired stand at the end. The look-up of the one that serves a check looks at these
//! alone or at those of its subject, whichever are fewer. A change is staged first,
//! which takes all memory that it needs, and then carried out with the entry that makes it, which takes
//! none. Contracts see the list of temporary authorizations that the definitions speak of, with those that
//! have expired, and the change that is staged.
#![tactic(auto)]

mod by_key;
mod numbers;
mod rows;
mod staged;
mod store;

pub use store::GrantStore;
