// The id of an action. Contracts see the bytes of its text.
ghost use Rattle.std.specs.Prelude.{◌≡◌, not, position, IfOk};
ghost use Rattle.pk_types.specs.ActionId.{IdIs, is_id_byte_of};

use crate::list::NoMemory;
use crate::text::Text;
use std::marker::Model;
use thiserror::Error;

/// The greatest number of bytes of an action id.
const MAX_ID: usize = 255;

/// The id of an action, as `org.freedesktop.policykit.exec`: 1 to 255 ASCII letters, digits,
/// dots, dashes and low lines.
#[derive(Drop, Debug)]
pub struct ActionId {
    text: Text,
}

impl Model for ActionId {
    ghost use Rattle.std.specs.Prelude.{ℕ, List};

    ghost Value = { List ℕ };

    ghost view = { λ a. a.text };
}

/// Why a text is no action id.
#[derive(Clone, Copy, Debug, PartialEq, Eq, Error)]
pub enum IdFault {
    #[error("the action id is empty")]
    Empty,
    #[error("the action id has {len} bytes, and at most 255 are allowed")]
    TooLong { len: usize },
    #[error("byte {at} is no ASCII letter, digit, '.', '-' or '_'")]
    BadChar { at: usize },
    #[error("out of memory")]
    NoMemory,
}

fn is_id_byte(b: u8) -> bool
    ensures class { result ≡ is_id_byte_of b }
{
    b.is_ascii_alphanumeric() || b == b'.' || b == b'-' || b == b'_'
}

fn bad_id_byte(bytes: &[u8]) -> Option<usize>
    ensures first { result ≡ position (λ b. not (is_id_byte_of b)) bytes.now }
{
    bytes.iter().position(|b| !is_id_byte(*b))
}

impl ActionId {
    /// The action id that the text spells.
    ///
    /// It is refused as `Empty`, as `TooLong` exactly over 255 bytes, and then as `BadChar` with
    /// the first byte that is no ASCII letter, digit, dot, dash or low line.
    pub fn read(text: &Text) -> Result<ActionId, IdFault>
        ensures id { IdIs text.now result }
    {
        let bytes = text.bytes();
        if bytes.is_empty() {
            return Err(IdFault::Empty);
        }
        if bytes.len() > MAX_ID {
            return Err(IdFault::TooLong { len: bytes.len() });
        }
        match bad_id_byte(bytes) {
            Some(at) => Err(IdFault::BadChar { at }),
            None => match text.try_copy() {
                Ok(text) => Ok(ActionId { text }),
                Err(_) => Err(IdFault::NoMemory),
            },
        }
    }

    /// The text of the id.
    pub fn text(&self) -> &Text
        ensures text { result.now ≡ self.now }
    {
        &self.text
    }

    /// The bytes of the id's text.
    pub fn bytes(&self) -> &[u8]
        ensures bytes { result.now ≡ self.now }
    {
        self.text.bytes()
    }

    /// A copy of the id.
    pub fn try_copy(&self) -> Result<ActionId, NoMemory>
        ensures copy { IfOk result (λ id. id ≡ self.now) }
    {
        let text = self.text.try_copy()?;
        Ok(ActionId { text })
    }
}
