//! The D-Bus interface of the authority: what a message asks of it.
//!
//! [`Method::row`] is the table of the methods. [`event_of`] says what a message from a connection
//! asks of the authority. The readers of values in [`arguments`] and [`pairs`] are the client's too.
#![tactic(auto)]

pub mod arguments;
mod calls;
mod dictionary;
mod event;
pub mod fault;
mod identities;
mod methods;
pub mod pairs;
mod subjects;

pub use event::{NO_REPLY_EXPECTED, error_name, event_of};
pub use methods::{AUTHORITY, AUTHORITY_PATH, Method, MethodRow, PROFILE, method_named};
