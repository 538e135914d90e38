//! The outside in memory, for tests and for a program without sockets.
//!
//! An object gives what it was made with, in pieces, fails at the listed calls, and keeps what comes
//! back. Its clauses say all of this in every state. `SureSource`, `SureSink` and `SureTree` never
//! fail, and `EmptyStation` has nothing to give. A `WatchedSink` has a rule for what may be written.
#![tactic(auto)]

mod bytes;
mod calls;
mod clock;
mod door;
mod empty_station;
mod file;
mod link;
mod seats;
mod sights;
mod station;
mod sure;
mod tally;
mod tree;
mod watched;

pub use bytes::{ByteSink, ByteSource};
pub use clock::{ListClock, ListSalt, Readings};
pub use door::{DoorPlan, ListDoor, ReturnedDoor};
pub use empty_station::{EmptyClock, EmptyDoor, EmptySalt, EmptySights, EmptyStation};
pub use file::{FilePlan, ListFile, ReturnedFile};
pub use link::{ByteLink, ReturnedLink};
pub use seats::Returned;
pub use sights::ListSights;
pub use station::{ListStation, StationPlan};
pub use sure::{SureSink, SureSource};
pub use tree::{ListTree, SureTree};
pub use watched::{WatchedSink, WriteRule};
