// The bytes of a reply.
ghost use Rattle.std.specs.Prelude.{◌≡◌, ◌++◌, length};
ghost use Rattle.link_handshake.specs.Replies.{guid_digits, reply_line};

use crate::server::ShakeReply;
use arrayvec::ArrayVec;
use std::marker::Model;

/// The line of a reply with its end, which contracts see as its bytes.
#[derive(Drop)]
pub struct ReplyLine {
    bytes: ArrayVec<u8, 37>,
}

impl Model for ReplyLine {
    ghost use Rattle.std.specs.Prelude.{ℕ, List};

    ghost Value = { List ℕ };

    ghost view = { λ line. line.bytes.items };
}

impl ReplyLine {
    /// The bytes of the line.
    pub fn bytes(&self) -> &[u8]
        ensures bytes { result.now ≡ self.now }
    {
        self.bytes.as_slice()
    }
}

fn digits_of(guid: u128) -> [u8; 32]
    ensures digits { result ≡ guid_digits guid }
{
    let mut digits = [0; 32];
    let _ = hex::encode_to_slice(guid.to_be_bytes(), &mut digits);
    digits
}

/// The line of a reply (D-Bus Specification, "Authentication Protocol"). The GUID is written as 32
/// lower-case hexadecimal digits, and stands in `OK` alone.
pub fn reply_bytes(reply: ShakeReply, guid: u128) -> ReplyLine
    ensures line { result ≡ reply_line guid reply }
{
    let mut bytes = ArrayVec::new();
    match reply {
        ShakeReply::Ok => {
            let _ = bytes.try_extend_from_slice(b"OK ");
            let _ = bytes.try_extend_from_slice(&digits_of(guid));
            let _ = bytes.try_extend_from_slice(b"\r\n");
        }
        ShakeReply::Data => {
            let _ = bytes.try_extend_from_slice(b"DATA\r\n");
        }
        ShakeReply::Rejected => {
            let _ = bytes.try_extend_from_slice(b"REJECTED EXTERNAL\r\n");
        }
        ShakeReply::ErrorLine => {
            let _ = bytes.try_extend_from_slice(b"ERROR\r\n");
        }
    }
    ReplyLine { bytes }
}
