// A message that lies in the bytes that it was read from.
ghost use Rattle.std.specs.Prelude.{◌≡◌, Ok};
ghost use Rattle.dbus_values.specs.Messages.{body_at};

use crate::cursor::Cursor;

/// A message, which borrows from the bytes that it was read from.
///
/// The header values are those of the D-Bus Specification, "Message Format" and "Header Fields". A
/// field is `None` exactly where the header lacks it. Each text is shown without its length and
/// its last byte 0.
#[derive(Clone, Copy)]
pub struct WireMessage<'a> {
    /// The message type: 1 a call, 2 a return, 3 an error, 4 a signal, others unknown; never 0.
    pub kind: u8,
    /// The flags: bit 0 says that no reply is expected.
    pub flags: u8,
    /// The serial, never 0.
    pub serial: u32,
    /// PATH, an object path.
    pub path: Option<&'a [u8]>,
    /// INTERFACE.
    pub interface: Option<&'a [u8]>,
    /// MEMBER.
    pub member: Option<&'a [u8]>,
    /// ERROR_NAME.
    pub error_name: Option<&'a [u8]>,
    /// REPLY_SERIAL, never 0.
    pub reply_serial: Option<u32>,
    /// The signature of the body; empty where the header has no SIGNATURE.
    pub signature: &'a [u8],
    pub(crate) big: bool,
    pub(crate) parts: usize,
    pub(crate) body: Cursor<'a>,
    ghost walked: { body_at big signature.now body.at body.rest.now ≡ Ok parts },
}
