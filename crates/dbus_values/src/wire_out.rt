// A message to be written.
use crate::value::ValueList;
use pk_types::Text;

/// The header fields of a message to be written. SIGNATURE is that of the body.
#[derive(Drop)]
pub struct HeaderOut {
    /// PATH, an object path.
    pub path: Option<Text>,
    /// INTERFACE.
    pub interface: Option<Text>,
    /// MEMBER.
    pub member: Option<Text>,
    /// ERROR_NAME.
    pub error_name: Option<Text>,
    /// REPLY_SERIAL, which is not 0.
    pub reply_serial: Option<u32>,
}

/// A message to be written, without its serial.
#[derive(Drop)]
pub struct WireOut {
    /// The message type, not 0.
    pub kind: u8,
    /// The flags.
    pub flags: u8,
    /// The header fields.
    pub fields: HeaderOut,
    /// The values of the body.
    pub body: ValueList,
}
