// What the system refused, and why.
use pk_types::Text;
use std::io::{self, ErrorKind};
use std::{fmt, str};

/// What was asked of the system.
#[derive(Clone, Copy, Debug, PartialEq, Eq)]
pub enum StationCall {
    /// To listen at a path.
    Listen,
    /// To accept a connection at a path that it listens at.
    Accept,
    /// To connect to whoever listens at a path.
    Connect,
    /// To make a file at a path.
    Create,
}

/// A call that the system refused, for the path, with the system's error. It is printed as one line,
/// as `cannot listen at /run/polkitd: Address already in use (os error 98)`.
#[derive(Drop)]
pub struct Refusal {
    /// What was asked.
    pub call: StationCall,
    /// The path of the socket or of the file.
    pub path: Text,
    /// Why it was refused.
    pub cause: io::Error,
}

impl fmt::Display for Refusal {
    fn fmt<W: fmt::Write>(&self, f: &mut fmt::Formatter<W>) -> fmt::Result {
        let asked = match self.call {
            StationCall::Listen => "listen at",
            StationCall::Accept => "accept at",
            StationCall::Connect => "connect to",
            StationCall::Create => "create",
        };
        let path = str::from_utf8(self.path.bytes()).unwrap_or("");
        write!(f, "cannot {asked} {path}: {}", self.cause)
    }
}

/// Why no socket and no file was made.
#[derive(Drop)]
pub(crate) enum CallRefused {
    /// The system refused.
    Failed(io::Error),
    /// Memory was refused.
    NoMemory,
}

impl CallRefused {
    /// The refusal of a call for this path, or none where it is want of memory: of the system, or
    /// for the copy of the path.
    pub(crate) fn of_call(self, call: StationCall, path: &Text) -> Option<Refusal> {
        match self {
            CallRefused::Failed(cause) if cause.kind() != ErrorKind::OutOfMemory => {
                let path = path.try_copy().ok()?;
                Some(Refusal { call, path, cause })
            }
            _ => None,
        }
    }
}

/// The path as the system takes it. An empty one names no file.
pub(crate) fn system_path(path: &Text) -> Result<&str, CallRefused> {
    match str::from_utf8(path.bytes()) {
        Ok(path) if !path.is_empty() => Ok(path),
        _ => Err(CallRefused::Failed(ErrorKind::InvalidInput.into())),
    }
}
