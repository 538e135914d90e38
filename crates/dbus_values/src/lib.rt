//! Messages of the D-Bus Specification, read and written exactly.
//!
//! [`next_message`] reads the message at the front of a stream of bytes, in either byte order,
//! without taking memory: what it gives borrows from the bytes. [`WireMessage::body`] gives the
//! parts of a message's body one by one. [`write_message`] writes a [`WireOut`], little-endian.
#![tactic(auto)]

mod awaiting;
mod basics;
mod bodies;
mod class;
mod codes;
mod cursor;
mod fault;
mod fields;
mod frames;
mod header;
mod known_items;
pub mod laws;
mod message;
mod part;
mod parts;
mod posting;
mod runs;
mod signature;
mod size;
mod start;
mod stretch;
mod strings;
mod value;
mod walk;
mod wire_message;
mod wire_out;
mod write;

pub use awaiting::awaited;
pub use codes::{ERROR, MAX_MESSAGE, METHOD_CALL, METHOD_RETURN, SIGNAL};
pub use fault::FaultKind;
pub use message::{Next, next_message};
pub use part::Part;
pub use parts::Parts;
pub use posting::write_message;
pub use runs::MOST_PARTS;
pub use size::message_size;
pub use strings::is_path;
pub use value::{Value, ValueList};
pub use wire_message::WireMessage;
pub use wire_out::{HeaderOut, WireOut};
