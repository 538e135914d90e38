//! Tests of the daemon's commands over objects in memory: streams and trees of which one call fails,
//! pieces of a read and of a write, which write comes before which read, and sinks that allow only
//! what a command may write.
#![tactic(auto)]

#[cfg(test)]
mod faults;
#[cfg(test)]
mod pieces;
#[cfg(test)]
mod pipes;
#[cfg(test)]
mod runs;
#[cfg(test)]
mod segments;
#[cfg(test)]
mod statuses;
#[cfg(test)]
mod trees;
#[cfg(test)]
mod watched;
