// The `connection` lines.

/// What a `connection` line tells of a connection that was served, and the number of its sighter.
#[derive(Clone, Copy, Debug, PartialEq, Eq)]
pub struct ConnectionLine {
    /// The number of the connection.
    pub number: u32,
    /// The uid of its socket.
    pub uid: u32,
    /// The number by which processes that are gone were taken out of the last load, if the connection
    /// looked at processes.
    pub sighter: Option<u32>,
}

impl ConnectionLine {
    /// The greatest number of the line.
    pub(crate) fn greatest(&self) -> u32 {
        match self.sighter {
            Some(sighter) => self.number.max(sighter),
            None => self.number,
        }
    }
}
