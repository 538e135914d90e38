// A place in a message, and the bytes from there to the end of what is read.
ghost use Rattle.std.specs.Prelude.{◌≡◌, ◌+◌, ◌≤◌, length, drop};
ghost use Rattle.dbus_values.specs.declared.codes.TheConstants.{MAX_MESSAGE};

/// The bytes that are left, and how far from the message's first byte they are.
#[derive(Clone, Copy)]
pub struct Cursor<'a> {
    pub at: usize,
    pub rest: &'a [u8],
    ghost fits: { at + length rest.now ≤ MAX_MESSAGE },
}

impl<'a> Cursor<'a> {
    /// The place n bytes further on.
    pub fn ahead(self, n: usize) -> Cursor<'a>
        requires { n ≤ length self.rest.now }
        ensures at { result.at ≡ self.entry.at + n }
        ensures rest { result.rest.now ≡ drop n self.entry.rest.now }
    {
        Cursor {
            at: self.at + n,
            rest: &self.rest[n..],
        }
    }
}

/// The bytes behind the first.
pub fn behind_first(bytes: &[u8]) -> &[u8]
    requires { 1 ≤ length bytes.now }
    ensures rest { result.now ≡ drop 1 bytes.now }
{
    &bytes[1..]
}

/// The bytes behind so many.
pub fn bytes_behind(n: usize, bytes: &[u8]) -> &[u8]
    requires { n ≤ length bytes.now }
    ensures rest { result.now ≡ drop n bytes.now }
{
    &bytes[n..]
}
