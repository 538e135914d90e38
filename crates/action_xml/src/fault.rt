// The first fault of an action file.
use pk_types::NoMemory;
use thiserror::Error;
use xml_pieces::XmlFaultKind;

/// The first fault of an action file, and where it stands.
#[derive(Clone, Copy, Debug, PartialEq, Eq, Error)]
#[error("{kind} at byte {at}")]
pub struct XmlFault {
    /// What is wrong.
    pub kind: XmlFaultKind,
    /// The offset in the file, counted in bytes from 0: of the `<`, the attribute or the
    /// reference concerned, or else of the first byte that may not stand there; the file's length
    /// where the file ends too early, and 0 for a file that is too long and for want of memory.
    pub at: usize,
}

impl From<NoMemory> for XmlFault {
    ghost use Rattle.std.specs.Prelude.{◌≡◌};
    ghost use Rattle.xml_pieces.specs.declared.fault.XmlFaultKind.TheVariants as kind;

    ghost from_gives = { λ _ fault. fault.kind ≡ kind.NoMemory };

    fn from(_: NoMemory) -> Self {
        XmlFault {
            kind: XmlFaultKind::NoMemory,
            at: 0,
        }
    }
}
