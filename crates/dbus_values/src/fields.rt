// The header fields of a message.

/// The fields that a header has, as far as they have been read: the value, or for some only that
/// the field is there.
#[derive(Clone, Copy)]
pub struct Fields<'a> {
    pub path: Option<&'a [u8]>,
    pub interface: Option<&'a [u8]>,
    pub member: Option<&'a [u8]>,
    pub error_name: Option<&'a [u8]>,
    pub reply_serial: Option<u32>,
    pub destination: bool,
    pub sender: bool,
    pub signature: Option<&'a [u8]>,
    pub unix_fds: bool,
}
