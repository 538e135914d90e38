//! Which process an event names. A connection that looks at processes looks at this one before it
//! hands the event in.
#![tactic(auto)]

mod naming;

pub use naming::named;
