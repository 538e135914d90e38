// Why reading stops. A fault's place is told by the bytes that are left from there on.
ghost use Rattle.std.specs.Prelude.{◌≡◌, length};
ghost use Rattle.xml_pieces.specs.declared.fault.XmlFaultKind.TheVariants as kind;
ghost use Rattle.xml_pieces.specs.declared.fault.Stop.TheVariants as stop;
ghost use Rattle.xml_pieces.specs.Names.{fault_name};

use pk_types::NoMemory;
use std::alloc::{AllocError, AllocFailed};
use std::fmt::{Display, Error as FmtError, Formatter, Write};

/// What is wrong with an action file.
#[derive(Clone, Copy, Debug, PartialEq, Eq)]
pub enum XmlFaultKind {
    /// A byte is 0, or the bytes are not valid UTF-8 from it on.
    NotUtf8,
    /// Anything that no other kind names.
    Malformed,
    /// An end tag has another name than the element that is open.
    Mismatch,
    /// An element stands where it may not.
    Element,
    /// The attribute `id` of an action is not an action id.
    ActionId,
    /// The text of a default is none of the six words.
    DefaultWord,
    /// An action has no `id`, or an annotation no `key`.
    Missing,
    /// An element comes twice that may stand once, or a language comes twice.
    Repeated,
    /// A CDATA section begins.
    Cdata,
    /// The file has more than 4,194,304 bytes, or a text or a value more than 65,535.
    TooLong,
    /// Memory was refused.
    NoMemory,
}

/// A fault, and how many bytes of the file are left from its place on.
#[derive(Clone, Copy, Debug, PartialEq, Eq)]
pub struct Fault {
    /// What is wrong.
    pub kind: XmlFaultKind,
    /// The number of bytes from the fault's place to the end of the file.
    pub left: usize,
}

/// Why reading stops.
#[derive(Clone, Copy, Debug, PartialEq, Eq)]
pub enum Stop {
    /// There is a fault.
    Bad(Fault),
    /// Memory was refused.
    Memory,
}

/// A fault of this kind at the front of these bytes, which reach to the end of the file.
pub fn fault_at(kind: XmlFaultKind, here: &[u8]) -> Stop
    ensures fault { result ≡ stop.Bad (record { kind = kind; left = length here.now }) }
{
    Stop::Bad(Fault {
        kind,
        left: here.len(),
    })
}

/// These bytes may not stand there.
pub fn malformed(here: &[u8]) -> Stop
    ensures fault { result ≡ stop.Bad (record { kind = kind.Malformed; left = length here.now }) }
{
    fault_at(XmlFaultKind::Malformed, here)
}

/// Something is cut off by the end of the file.
pub fn cut_off() -> Stop
    ensures fault { result ≡ stop.Bad (record { kind = kind.Malformed; left = 0 }) }
{
    Stop::Bad(Fault {
        kind: XmlFaultKind::Malformed,
        left: 0,
    })
}

impl XmlFaultKind {
    /// The name of the kind, as this type writes it: `NotUtf8`, `Malformed`, `Mismatch`,
    /// `Element`, `ActionId`, `DefaultWord`, `Missing`, `Repeated`, `Cdata`, `TooLong` or
    /// `NoMemory`. Its `Display` says it in words.
    pub fn name(self) -> &'static str
        ensures text { result.now ≡ fault_name self }
    {
        match self {
            XmlFaultKind::NotUtf8 => "NotUtf8",
            XmlFaultKind::Malformed => "Malformed",
            XmlFaultKind::Mismatch => "Mismatch",
            XmlFaultKind::Element => "Element",
            XmlFaultKind::ActionId => "ActionId",
            XmlFaultKind::DefaultWord => "DefaultWord",
            XmlFaultKind::Missing => "Missing",
            XmlFaultKind::Repeated => "Repeated",
            XmlFaultKind::Cdata => "Cdata",
            XmlFaultKind::TooLong => "TooLong",
            XmlFaultKind::NoMemory => "NoMemory",
        }
    }
}

impl Display for XmlFaultKind {
    fn fmt<W: Write>(&self, f: &mut Formatter<W>) -> Result<(), FmtError> {
        f.write_str(match self {
            XmlFaultKind::NotUtf8 => "not valid UTF-8",
            XmlFaultKind::Malformed => "malformed",
            XmlFaultKind::Mismatch => "an end tag of another name",
            XmlFaultKind::Element => "an element that may not stand there",
            XmlFaultKind::ActionId => "not an action id",
            XmlFaultKind::DefaultWord => "not a default",
            XmlFaultKind::Missing => "an attribute is missing",
            XmlFaultKind::Repeated => "repeated",
            XmlFaultKind::Cdata => "a CDATA section",
            XmlFaultKind::TooLong => "too long",
            XmlFaultKind::NoMemory => "out of memory",
        })
    }
}

impl From<NoMemory> for Stop {
    ghost use Rattle.std.specs.Prelude.{◌≡◌};
    ghost use Rattle.xml_pieces.specs.declared.fault.Stop.TheVariants as stop;

    ghost from_gives = { λ _ e. e ≡ stop.Memory };

    fn from(_: NoMemory) -> Self {
        Stop::Memory
    }
}

impl From<AllocError> for Stop {
    ghost use Rattle.std.specs.Prelude.{◌≡◌};
    ghost use Rattle.xml_pieces.specs.declared.fault.Stop.TheVariants as stop;

    ghost from_gives = { λ _ e. e ≡ stop.Memory };

    fn from(_: AllocError) -> Self {
        Stop::Memory
    }
}

impl<T: Drop> From<AllocFailed<T>> for Stop {
    ghost use Rattle.std.specs.Prelude.{◌≡◌};
    ghost use Rattle.xml_pieces.specs.declared.fault.Stop.TheVariants as stop;

    ghost from_gives = { λ _ e. e ≡ stop.Memory };

    fn from(_: AllocFailed<T>) -> Self {
        Stop::Memory
    }
}
