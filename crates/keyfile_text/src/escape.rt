// Escapes in values.
ghost use Rattle.std.specs.Prelude.{◌≡◌};
ghost use Rattle.keyfile_text.specs.Escapes.{escaped, escapes_whole};

/// What an escape stands for, by its byte behind the `\`.
pub fn unescaped(b: u8) -> Option<u8>
    ensures byte { result ≡ escaped b }
{
    match b {
        b's' => Some(b' '),
        b'n' => Some(b'\n'),
        b't' => Some(b'\t'),
        b'r' => Some(b'\r'),
        b'\\' => Some(b'\\'),
        b';' => Some(b';'),
        _ => None,
    }
}

/// Whether each `\` of a value begins an escape.
pub fn are_escapes_whole(value: &[u8]) -> bool
    ensures whole { result ≡ escapes_whole value.now }
{
    let mut rest = value;
    let mut behind = false;
    while let Some((b, later)) = rest.split_first() {
        if behind && unescaped(*b).is_none() {
            return false;
        }
        behind = !behind && *b == b'\\';
        rest = later;
    }
    !behind
}
