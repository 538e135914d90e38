// How a reader ends.
ghost use Rattle.std.specs.Prelude.{◌≡◌};
ghost use Rattle.connection_reader.specs.Stops.{end_of};

use dbus_values::FaultKind;
use history_lock::EndCause;

/// How the reading half of a connection ended. But where it is `Ended` the end of the connection was
/// handed in.
#[derive(Clone, Copy, Debug, PartialEq, Eq)]
pub enum ReaderEnd {
    /// The source ended behind a message.
    Done,
    /// The source ended inside a message, after this many bytes of it.
    Truncated { rest: usize },
    /// The next message has this fault, at this byte of it.
    BadBytes { kind: FaultKind, at: usize },
    /// The source counted a fault.
    ReadFault,
    /// The look at the process that the next message names failed, and was counted.
    SightFault,
    /// Memory was refused.
    NoMemory,
    /// Something that was handed in was refused, and the lock has ended by this cause.
    Ended { cause: EndCause },
}

/// Why no further message is handed in.
#[derive(Clone, Copy, Debug, PartialEq, Eq)]
pub enum ReadStop {
    /// The source ended behind a message.
    Done,
    /// The source ended inside a message, after this many bytes of it.
    Truncated { rest: usize },
    /// The next message has this fault, at this byte of it.
    BadBytes { kind: FaultKind, at: usize },
    /// The source counted a fault.
    ReadFault,
    /// The look at the process that the next message names failed, and was counted.
    SightFault,
    /// Memory was refused.
    NoMemory,
}

/// How a reader ends whose last message was followed by this.
pub fn end_of(read: Result<ReadStop, EndCause>) -> ReaderEnd
    ensures { result ≡ end_of read }
{
    match read {
        Ok(ReadStop::Done) => ReaderEnd::Done,
        Ok(ReadStop::Truncated { rest }) => ReaderEnd::Truncated { rest },
        Ok(ReadStop::BadBytes { kind, at }) => ReaderEnd::BadBytes { kind, at },
        Ok(ReadStop::ReadFault) => ReaderEnd::ReadFault,
        Ok(ReadStop::SightFault) => ReaderEnd::SightFault,
        Ok(ReadStop::NoMemory) => ReaderEnd::NoMemory,
        Err(cause) => ReaderEnd::Ended { cause },
    }
}
