// The parts of a body.

/// A part of a message's body.
///
/// `kind` is the type code: `(` for a structure, `{` for a dict entry. A value of a basic type is
/// one part. A container begins with `Enter` and ends with `Leave`. A variant is its signature,
/// with the parts of its value behind it.
#[derive(Clone, Copy, Debug, PartialEq)]
pub enum Part<'a> {
    /// A number, by its bytes as an unsigned one; a double too.
    Number { kind: u8, value: u64 },
    /// A text, an object path or a signature, without its last byte 0.
    Text { kind: u8, bytes: &'a [u8] },
    /// An array, a structure or a dict entry begins.
    Enter { kind: u8 },
    /// The innermost open array, structure or dict entry ends.
    Leave { kind: u8 },
    /// A variant of this type; the parts of its value follow.
    Variant { signature: &'a [u8] },
}
