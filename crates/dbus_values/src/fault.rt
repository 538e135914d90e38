// What is wrong with a message.
ghost use Rattle.std.specs.Prelude.{◌≡◌};

/// The kind of a fault.
#[derive(Clone, Copy, Debug, PartialEq, Eq)]
pub enum FaultKind {
    /// The first byte is neither `l` nor `B`.
    Endian,
    /// The message type is 0.
    Kind,
    /// The protocol version is not 1.
    Version,
    /// The serial is 0.
    Serial,
    /// A header field has the code 0, another type than the code says, comes twice or lacks, or a
    /// REPLY_SERIAL is 0.
    Fields,
    /// A byte of padding is not 0.
    Padding,
    /// A boolean is neither 0 nor 1.
    Bool,
    /// A text, an object path or a signature is out of its form.
    Text,
    /// The message is longer than 16,777,216 bytes, a value passes the end of its array, of the
    /// header fields or of the body, or bytes are left over.
    Length,
    /// More than 64 containers stand inside each other.
    Depth,
}

/// The first fault from the front, and its place, counted from the message's first byte.
#[derive(Clone, Copy, Debug, PartialEq, Eq)]
pub struct Fault {
    /// What is wrong.
    pub kind: FaultKind,
    /// The place, in bytes from the message's first.
    pub at: usize,
}

impl Fault {
    /// A fault of this kind at this place.
    pub fn new(kind: FaultKind, at: usize) -> Fault
        ensures fault { result ≡ record { kind = kind; at = at } }
    {
        Fault { kind, at }
    }
}

/// Why the first bytes begin no message.
#[derive(Clone, Copy, Debug, PartialEq, Eq)]
pub enum Stop {
    /// More bytes have to come, and those that are there show no fault.
    Partial,
    /// They have this fault.
    Bad(Fault),
}

impl Stop {
    /// The message has a fault of this kind at this place.
    pub fn bad(kind: FaultKind, at: usize) -> Stop
        ensures stop { result ≡ Stop.Bad (record { kind = kind; at = at }) }
    {
        Stop::Bad(Fault { kind, at })
    }
}
