// The connection that a bus name names.
ghost use Rattle.std.specs.Prelude.{◌≡◌};
ghost use Rattle.authority_model.specs.Subjects.{caller_named};

use pk_types::{Text, number};

/// The connection that a bus name names: `:1.` and its number.
pub fn caller_of(name: &Text) -> Option<u32>
    ensures caller { result ≡ caller_named name.now }
{
    match name.bytes() {
        [b':', b'1', b'.', word @ ..] => number(word),
        _ => None,
    }
}
