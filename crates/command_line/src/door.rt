// A door, and the word that names it.
ghost use Rattle.std.specs.Prelude.{◌≡◌, Some, None, IfOk, IfSome, IfNone, is_some};
ghost use Rattle.command_line.specs.Doors.{cut_at, door_of, parts_of, text_in};

use pk_types::{MAX_TEXT, NoMemory, Text, TextFault, bad_byte, cut, number};
use std::alloc::Global;

/// A door: a socket at a path, all of whose connections are of one user.
#[derive(Drop)]
pub struct DoorPath {
    /// The user.
    pub uid: u32,
    /// The path, which is not empty.
    pub path: Text,
}

/// What stands before the first separator, and what stands after it; `None` where there is none.
#[tactic(auto, using(crate::proofs::Cuts::cut_found, crate::proofs::Cuts::cut_none))]
pub fn halves(word: &[u8], separator: u8) -> Option<(&[u8], &[u8])>
    ensures found { IfSome result (λ (before, after). cut_at separator word.now ≡ Some (before.now, after.now)) }
    ensures none { IfNone result (cut_at separator word.now ≡ None) }
{
    cut(word, separator)
}

/// The uid and the path of a word `UID:PATH`.
fn parts(word: &[u8]) -> Option<(u32, &[u8])>
    ensures found { IfSome result (λ (uid, path). parts_of word.now ≡ Some (uid, path.now)) }
    ensures none { IfNone result (parts_of word.now ≡ None) }
{
    let (uid, path) = halves(word, b':')?;
    let uid = number(uid)?;
    if path.is_empty() {
        return None;
    }
    Some((uid, path))
}

/// The text that the bytes are, if they are one.
fn text_in(alloc: Global, bytes: &[u8]) -> Result<Option<Text>, NoMemory>
    ensures text { IfOk result (λ text. text ≡ text_in bytes.now) }
{
    match Text::try_from_bytes(alloc, bytes) {
        Ok(text) => Ok(Some(text)),
        Err(TextFault::NoMemory) => Err(NoMemory),
        Err(TextFault::TooLong { .. }) => Ok(None),
        Err(TextFault::BadByte { .. }) => Ok(None),
    }
}

/// The door that a word `UID:PATH` names. UID is a decimal number of 32 bits without a sign and
/// without a zero in front of other digits, and PATH is a text that is not empty, which may have
/// colons of its own.
///
/// `None` exactly where the word has another form.
///
/// # Errors
/// `NoMemory` alone.
pub fn read_door(alloc: Global, word: &[u8]) -> Result<Option<DoorPath>, NoMemory>
    ensures door { IfOk result (λ door. door ≡ door_of word.now) }
{
    let Some((uid, path)) = parts(word) else {
        return Ok(None);
    };
    let Some(path) = text_in(alloc, path)? else {
        return Ok(None);
    };
    Ok(Some(DoorPath { uid, path }))
}

/// Whether the bytes are a text.
fn is_text(bytes: &[u8]) -> bool
    ensures text { result ≡ is_some (text_in bytes.now) }
{
    bytes.len() <= MAX_TEXT && bad_byte(bytes).is_none()
}

/// Whether a word names a door, as `read_door` has it. It takes no memory.
pub fn is_door(word: &[u8]) -> bool
    ensures door { result ≡ is_some (door_of word.now) }
{
    match parts(word) {
        Some((_, path)) => is_text(path),
        None => false,
    }
}
