// Why bytes are no key file.
ghost use Rattle.std.specs.Prelude.{◌≡◌};
ghost use Rattle.keyfile_text.specs.Names.{fault_name};

use pk_types::NoMemory;
use std::fmt::{Display, Error as FmtError, Formatter, Write};
use thiserror::Error;

/// What is wrong with a key file.
#[derive(Clone, Copy, Debug, PartialEq, Eq)]
pub enum KeyFaultKind {
    /// A byte is 0 or ends the bytes as UTF-8.
    NotUtf8,
    /// A line that sets a key stands before the first group.
    NoGroup,
    /// A line begins with `[` and is no `[NAME]`.
    BadHeader,
    /// A line has no `=`, or nothing before it.
    NoEquals,
    /// A `\` in a value begins no escape.
    BadEscape,
    /// The file has more than 1,048,576 bytes, or a name, key or value more than 65,535.
    TooLong,
    /// Memory was refused.
    NoMemory,
}

/// The first fault of a key file, and where it stands: at the byte that is no UTF-8, or else at
/// the first byte of the faulty line. It is 0 for a file that is too long and for want of memory.
#[derive(Clone, Copy, Debug, PartialEq, Eq, Error)]
#[error("{kind} at byte {at}")]
pub struct KeyFault {
    pub kind: KeyFaultKind,
    pub at: usize,
}

impl KeyFaultKind {
    /// The name of the kind, as this type writes it: `NotUtf8`, `NoGroup`, `BadHeader`,
    /// `NoEquals`, `BadEscape`, `TooLong` or `NoMemory`. Its `Display` says it in words.
    pub fn name(self) -> &'static str
        ensures text { result.now ≡ fault_name self }
    {
        match self {
            KeyFaultKind::NotUtf8 => "NotUtf8",
            KeyFaultKind::NoGroup => "NoGroup",
            KeyFaultKind::BadHeader => "BadHeader",
            KeyFaultKind::NoEquals => "NoEquals",
            KeyFaultKind::BadEscape => "BadEscape",
            KeyFaultKind::TooLong => "TooLong",
            KeyFaultKind::NoMemory => "NoMemory",
        }
    }
}

impl Display for KeyFaultKind {
    fn fmt<W: Write>(&self, f: &mut Formatter<W>) -> Result<(), FmtError> {
        f.write_str(match self {
            KeyFaultKind::NotUtf8 => "no UTF-8",
            KeyFaultKind::NoGroup => "a key before the first group",
            KeyFaultKind::BadHeader => "no group header",
            KeyFaultKind::NoEquals => "no key before `=`",
            KeyFaultKind::BadEscape => "no escape",
            KeyFaultKind::TooLong => "too long",
            KeyFaultKind::NoMemory => "out of memory",
        })
    }
}

impl From<NoMemory> for KeyFault {
    ghost use Rattle.std.specs.Prelude.{◌≡◌};
    ghost use Rattle.keyfile_text.specs.declared.fault.KeyFaultKind.TheVariants as kind;

    ghost from_gives = { λ _ fault. fault.kind ≡ kind.NoMemory };

    fn from(_: NoMemory) -> Self {
        KeyFault {
            kind: KeyFaultKind::NoMemory,
            at: 0,
        }
    }
}
