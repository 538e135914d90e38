//! The real outside of a running program: the files and the standard streams of the system, Unix
//! sockets, the system's clock, and random words.
//!
//! `DirTree` has the policy files, `ReadSource` and `WriteSink` the standard streams, and
//! `SocketStation` is the station that a program makes in its `main`. Its doors listen at paths of
//! the file system, and its links are the sockets that they accept or that it connects. All of them
//! are the trusted edge, and tell nothing of the content. What is proved of them is what the traits
//! promise, the counts of faults above all.
#![tactic(auto)]

mod clock;
mod door;
mod file;
mod paths;
mod refusal;
mod salt;
mod sights;
mod socket;
mod station;
mod streams;
#[cfg(test)]
mod tests;
mod tree;

pub use clock::SystemClock;
pub use door::SocketDoor;
pub use refusal::{Refusal, StationCall};
pub use salt::RandomSalt;
pub use sights::ProcessSights;
pub use socket::{HANDSHAKE_SECONDS, SocketLink, SocketSink, SocketSource, WRITE_SECONDS};
pub use station::SocketStation;
pub use streams::{ReadSource, WriteSink};
pub use tree::DirTree;
