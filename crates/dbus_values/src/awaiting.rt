// How much to await before bytes are looked at again that begin less than a message.
ghost use Rattle.std.specs.Prelude.{◌≡◌};
ghost use Rattle.dbus_values.specs.Awaiting.{awaited};

use crate::start::start_of;

/// How many bytes to await before the bytes are looked at again that begin less than a message: its
/// whole length where its first 16 bytes are there, and one more than there are where they are not
/// (D-Bus Specification, "Message Format"). It looks at 16 bytes at most.
///
/// With fewer bytes than these there is still less than a message (`laws::fewer_than_awaited`).
pub fn awaited(bytes: &[u8]) -> usize
    ensures exact { result ≡ awaited bytes.now }
{
    match start_of(bytes) {
        Ok(start) => start.total(),
        Err(_) => bytes.len().saturating_add(1),
    }
}
