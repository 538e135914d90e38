//! What the authority meets of the outside: bytes that come and go, a tree of files, doors with
//! their links, files that are written, clocks, random words and looks at processes, and the station
//! that makes these.
//!
//! Each of these is a trait. Its object tells what it holds where it can, and always has a count
//! of its faults, which never falls: a call answers `Failed` only where the count rose in that
//! call, and a door and a station leave it in any other. The kinds in memory (`memory_outside`) stand
//! for the outside in tests; the real kinds are the trusted edge, and tell nothing of the content.
#![tactic(auto)]

mod clock;
mod door;
mod link;
mod sights;
mod station;
mod stream;
mod tree;

pub use clock::{Clock, Salt};
pub use door::{Accepted, Door};
pub use link::{Ends, Link};
pub use sights::{Sighted, Sights};
pub use station::{Station, StationRefused};
pub use stream::{Failed, Sink, Source, write_all};
pub use tree::{FileBytes, Names, Tree, TreeDirectory, TreeFile, TreeRefused};
