// A text: UTF-8 without byte 0, at most 65,535 bytes. Contracts see its bytes.
ghost use Rattle.std.specs.Prelude.{◌≡◌, ◌==◌, ◌≤◌, [], length, position, bytes_eq, IfOk};
ghost use Rattle.std.specs.Str.Lossy.{utf8_valid_len};
ghost use Rattle.pk_types.specs.Text.{IsText, TextIs, text_bad};

use crate::list::NoMemory;
use std::alloc::Global;
use std::marker::Model;
use std::str;
use thiserror::Error;

/// The greatest number of bytes of a text.
pub const MAX_TEXT: usize = 65535;

/// A text: UTF-8 without byte 0, at most 65,535 bytes, as a string of the D-Bus Specification
/// without its length and its last byte 0.
///
/// It keeps the allocator that it was made with.
#[derive(Drop, Debug)]
pub struct Text {
    bytes: Vec<u8>,
}

impl Model for Text {
    ghost use Rattle.std.specs.Prelude.{ℕ, List};

    ghost Value = { List ℕ };

    ghost view = { λ t. t.bytes.items };

    ghost use Rattle.pk_types.specs.Text.{IsText};

    ghost invariant = { λ t. IsText t.bytes.items };
}

/// Why bytes are no text.
#[derive(Clone, Copy, Debug, PartialEq, Eq, Error)]
pub enum TextFault {
    #[error("the text has {len} bytes, and at most 65535 are allowed")]
    TooLong { len: usize },
    #[error("byte {at} is 0 or no UTF-8")]
    BadByte { at: usize },
    #[error("out of memory")]
    NoMemory,
}

fn valid_len(bytes: &[u8]) -> usize
    ensures value { result ≡ utf8_valid_len bytes.now }
    ensures within { result ≤ length bytes.now }
{
    match str::from_utf8(bytes) {
        Ok(_) => bytes.len(),
        Err(e) => e.valid_up_to(),
    }
}

fn zero_at(bytes: &[u8]) -> Option<usize>
    ensures first { result ≡ position (λ b. b == 0) bytes.now }
{
    bytes.iter().position(|b| *b == 0)
}

/// Where the first byte stands that is 0 or that ends the bytes as UTF-8, and `None` exactly where
/// there is none. It takes no memory.
pub fn bad_byte(bytes: &[u8]) -> Option<usize>
    ensures first { result ≡ text_bad bytes.now }
{
    let valid = valid_len(bytes);
    match zero_at(&bytes[..valid]) {
        Some(at) => Some(at),
        None => {
            if valid < bytes.len() {
                Some(valid)
            } else {
                None
            }
        }
    }
}

impl Text {
    /// The empty text. It takes no memory.
    pub fn new(alloc: Global) -> Text
        ensures empty { result ≡ [] }
    {
        Text {
            bytes: Vec::new(alloc),
        }
    }

    /// The text of these bytes.
    ///
    /// It is refused as `TooLong` exactly over 65,535 bytes, and then as `BadByte`, with the first
    /// such place, exactly where a byte is 0 or the bytes are not UTF-8.
    pub fn try_from_bytes(alloc: Global, bytes: &[u8]) -> Result<Text, TextFault>
        ensures text { TextIs bytes.now result }
    {
        if bytes.len() > MAX_TEXT {
            return Err(TextFault::TooLong { len: bytes.len() });
        }
        match bad_byte(bytes) {
            Some(at) => Err(TextFault::BadByte { at }),
            None => match bytes.to_vec(alloc) {
                Ok(bytes) => Ok(Text { bytes }),
                Err(_) => Err(TextFault::NoMemory),
            },
        }
    }

    /// The text of bytes that are known to be one, so that memory alone is refused.
    ///
    /// # Errors
    /// `NoMemory` alone.
    pub fn of_known(alloc: Global, bytes: &[u8]) -> Result<Text, NoMemory>
        requires text { IsText bytes.now }
        ensures text { IfOk result (λ text. text ≡ bytes.now) }
    {
        match bytes.to_vec(alloc) {
            Ok(bytes) => Ok(Text { bytes }),
            Err(_) => Err(NoMemory),
        }
    }

    /// The bytes of the text.
    pub fn bytes(&self) -> &[u8]
        ensures bytes { result.now ≡ self.now }
        ensures text { IsText self.now }
    {
        self.bytes.as_slice()
    }

    /// Whether the two texts are one.
    pub fn is_same(&self, other: &Text) -> bool
        ensures same { result ≡ bytes_eq self.now other.now }
    {
        self.bytes() == other.bytes()
    }

    /// A copy of the text.
    pub fn try_copy(&self) -> Result<Text, NoMemory>
        ensures copy { IfOk result (λ text. text ≡ self.now) }
    {
        match self.bytes.clone() {
            Ok(bytes) => Ok(Text { bytes }),
            Err(_) => Err(NoMemory),
        }
    }
}
