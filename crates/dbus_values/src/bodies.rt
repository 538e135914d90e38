// The body of a message.
ghost use Rattle.std.specs.Prelude.{◌≡◌, ◌+◌, ◌≤◌, [], length, Ok};
ghost use Rattle.dbus_values.specs.declared.codes.TheConstants.{MAX_MESSAGE};
ghost use Rattle.dbus_values.specs.Messages.{body_at};
ghost use Rattle.dbus_values.specs.Walk.{state, parts};
ghost use Rattle.dbus_values.specs.Next.{parts_of};
ghost use Rattle.dbus_values.specs.Trees.{Trees, types_of, all_pieces, AllFit};

use crate::cursor::Cursor;
use crate::parts::Parts;
use crate::wire_message::WireMessage;

/// So many parts of a body, which is read by its signature to its last byte.
fn body_parts<'a>(
    big: bool,
    left: usize,
    signature: &'a [u8],
    at: usize,
    bytes: &'a [u8],
) -> Parts<'a>
    requires short { at + length bytes.now ≤ MAX_MESSAGE }
    requires read { body_at big signature.now at bytes.now ≡ Ok left }
    ensures parts { result ≡ parts left 64 big (state [] signature.now at bytes.now) }
    ensures values { (ts : Trees) × AllFit 64 ts × (signature.now ≡ types_of ts) × (result ≡ all_pieces ts) }
{
    let from = Cursor { at, rest: bytes };
    Parts::at(big, left, signature, from)
}

impl<'a> WireMessage<'a> {
    /// The parts of the body, from the first on. It takes no memory.
    ///
    /// They are those of values of the message's signature, inside which at most 64 containers
    /// stand.
    pub fn body(&self) -> Parts<'a>
        ensures parts { result ≡ parts_of self.now }
        ensures values { (ts : Trees) × AllFit 64 ts × (self.now.signature.now ≡ types_of ts) × (result ≡ all_pieces ts) }
    {
        body_parts(
            self.big,
            self.parts,
            self.signature,
            self.body.at,
            self.body.rest,
        )
    }
}
