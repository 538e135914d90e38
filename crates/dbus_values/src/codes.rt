// The numbers of the D-Bus Specification, "Message Format" and "Header Fields".

/// The message type METHOD_CALL.
pub const METHOD_CALL: u8 = 1;

/// The message type METHOD_RETURN.
pub const METHOD_RETURN: u8 = 2;

/// The message type ERROR.
pub const ERROR: u8 = 3;

/// The message type SIGNAL.
pub const SIGNAL: u8 = 4;

/// The code of the header field PATH.
pub const PATH: u8 = 1;

/// The code of the header field INTERFACE.
pub const INTERFACE: u8 = 2;

/// The code of the header field MEMBER.
pub const MEMBER: u8 = 3;

/// The code of the header field ERROR_NAME.
pub const ERROR_NAME: u8 = 4;

/// The code of the header field REPLY_SERIAL.
pub const REPLY_SERIAL: u8 = 5;

/// The code of the header field DESTINATION.
pub const DESTINATION: u8 = 6;

/// The code of the header field SENDER.
pub const SENDER: u8 = 7;

/// The code of the header field SIGNATURE.
pub const SIGNATURE: u8 = 8;

/// The code of the header field UNIX_FDS, the last that is known.
pub const UNIX_FDS: u8 = 9;

/// The greatest number of bytes of a message.
pub const MAX_MESSAGE: usize = 16_777_216;

/// The greatest number of bytes of a body, which stands behind 16 bytes at least.
pub const MAX_BODY: u32 = 16_777_200;
