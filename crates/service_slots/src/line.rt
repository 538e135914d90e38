// What is written of a connection.
use connection_serve::LiveEnd;

/// A connection that was served.
#[derive(Clone, Copy, PartialEq, Eq, Debug)]
pub struct Line {
    /// Its number, which its entries in the journal have as their caller.
    pub number: u32,
    /// The user id of its door.
    pub uid: u32,
    /// The number of its sighter, if it looked at processes.
    pub sighter: Option<u32>,
    /// How it ended.
    pub end: LiveEnd,
}
