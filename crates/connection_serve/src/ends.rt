// How a connection ends.
ghost use Rattle.std.specs.Prelude.{◌≡◌};
ghost use Rattle.connection_serve.specs.Ends.{end_of, live_end_of, with_writer};

use connection_reader::ReaderEnd;
use connection_writer::WriterEnd;
use dbus_values::FaultKind;
use history_lock::EndCause;
use link_handshake::ShakeFault;

/// How a connection ended. Where several of these apply the first of them is answered, and
/// `NoMemory` may stand in place of any.
#[derive(Clone, Copy, Debug, PartialEq, Eq)]
pub enum End {
    /// The lock has ended, by this cause.
    Ended { cause: EndCause },
    /// The sink counted a fault.
    WriteFault,
    /// The source counted a fault.
    ReadFault,
    /// The handshake's bytes have this fault.
    BadShake { fault: ShakeFault },
    /// The source ended before the messages began.
    ShakeCut,
    /// Behind the messages stands this fault, at this byte of what follows them.
    BadBytes { kind: FaultKind, at: usize },
    /// The source ended inside a message, after this many bytes of it.
    Truncated { rest: usize },
    /// The source ended behind a message.
    Done,
    /// Memory was refused.
    NoMemory,
}

/// How a connection ended that may look at processes.
#[derive(Clone, Copy, Debug, PartialEq, Eq)]
pub enum LiveEnd {
    /// The look at the process that the next message names failed, and was counted. It is answered in
    /// place of each other end but `Ended`, `WriteFault` and `NoMemory`.
    SightFault,
    /// The end that a connection has which never looks.
    Plain(End),
}

/// The end of a connection whose reader ended without the lock's end, as this end says.
fn with_writer(end: End, wrote: WriterEnd) -> End
    ensures { result ≡ with_writer end wrote }
{
    match wrote {
        WriterEnd::All => end,
        WriterEnd::Ended { cause } => End::Ended { cause },
        WriterEnd::WriteFault => End::WriteFault,
        WriterEnd::NoMemory => End::NoMemory,
    }
}

/// The end of a connection, by those of its reader and of its writer. A look that failed is told apart
/// by `live_end_of`.
fn end_of(read: ReaderEnd, wrote: WriterEnd) -> End
    ensures { result ≡ end_of read wrote }
{
    match read {
        ReaderEnd::Ended { cause } => End::Ended { cause },
        ReaderEnd::ReadFault => with_writer(End::ReadFault, wrote),
        ReaderEnd::BadBytes { kind, at } => with_writer(End::BadBytes { kind, at }, wrote),
        ReaderEnd::Truncated { rest } => with_writer(End::Truncated { rest }, wrote),
        ReaderEnd::Done => with_writer(End::Done, wrote),
        ReaderEnd::SightFault | ReaderEnd::NoMemory => with_writer(End::NoMemory, wrote),
    }
}

/// The end of a connection that may look at processes, by those of its reader and of its writer.
pub fn live_end_of(read: ReaderEnd, wrote: WriterEnd) -> LiveEnd
    ensures { result ≡ live_end_of read wrote }
{
    match (read, wrote) {
        (ReaderEnd::SightFault, WriterEnd::All) => LiveEnd::SightFault,
        _ => LiveEnd::Plain(end_of(read, wrote)),
    }
}
