// The arguments of a call, from the parts of its body, one after the other.
ghost use Rattle.std.specs.Prelude.{◌≡◌, ℕ};
ghost use Rattle.dbus_values.specs.Parts.{piece};
ghost use Rattle.authority_calls.specs.Arguments.{part, text_of, as_text, as_u32, as_u64, as_bytes, as_enter, as_leave, as_variant, part_as, text, uint32, uint64, path, open_behind, behind, Gives, GivesAs, Takes, TakesAs};

use crate::fault::ArgumentFault;
use dbus_values::{Part, Parts, is_path};
use pk_types::{Text, TextFault};
use std::alloc::Global;

/// The type code STRING.
pub const STRING: u8 = b's';

/// The type code UINT32.
pub const UINT32: u8 = b'u';

/// The type code UINT64.
pub const UINT64: u8 = b't';

/// How many containers may stand inside each other in a body.
pub const DEEPEST: usize = 64;

/// The next part.
pub fn part<'a>(parts: &mut Parts<'a>) -> Result<Part<'a>, ArgumentFault>
    ensures exact { TakesAs piece part parts.old parts.new result }
{
    match parts.next() {
        Some(part) => Ok(part),
        None => Err(ArgumentFault::OutOfForm),
    }
}

/// The text of these bytes.
pub fn text_of(alloc: Global, bytes: &[u8]) -> Result<Text, ArgumentFault>
    ensures exact { Gives result (text_of bytes.now) }
{
    match Text::try_from_bytes(alloc, bytes) {
        Ok(text) => Ok(text),
        Err(TextFault::TooLong { .. }) => Err(ArgumentFault::OutOfForm),
        Err(TextFault::BadByte { .. }) => Err(ArgumentFault::OutOfForm),
        Err(TextFault::NoMemory) => Err(ArgumentFault::NoMemory),
    }
}

/// What a part is as a STRING.
pub fn as_text(alloc: Global, part: Part) -> Result<Text, ArgumentFault>
    ensures exact { Gives result (as_text (piece part.entry)) }
{
    match part {
        Part::Text { kind, bytes } => {
            if kind == STRING {
                text_of(alloc, bytes)
            } else {
                Err(ArgumentFault::OutOfForm)
            }
        }
        Part::Number { .. } | Part::Enter { .. } | Part::Leave { .. } | Part::Variant { .. } => {
            Err(ArgumentFault::OutOfForm)
        }
    }
}

/// What a part is as a UINT32.
pub fn as_u32(part: Part) -> Result<u32, ArgumentFault>
    ensures exact { Gives result (as_u32 (piece part.entry)) }
{
    match part {
        Part::Number { kind, value } => {
            if kind == UINT32 && value < 4294967296 {
                Ok(value as u32)
            } else {
                Err(ArgumentFault::OutOfForm)
            }
        }
        Part::Text { .. } | Part::Enter { .. } | Part::Leave { .. } | Part::Variant { .. } => {
            Err(ArgumentFault::OutOfForm)
        }
    }
}

/// What a part is as a UINT64.
pub fn as_u64(part: Part) -> Result<u64, ArgumentFault>
    ensures exact { Gives result (as_u64 (piece part.entry)) }
{
    match part {
        Part::Number { kind, value } => {
            if kind == UINT64 {
                Ok(value)
            } else {
                Err(ArgumentFault::OutOfForm)
            }
        }
        Part::Text { .. } | Part::Enter { .. } | Part::Leave { .. } | Part::Variant { .. } => {
            Err(ArgumentFault::OutOfForm)
        }
    }
}

/// The bytes of a text of any length.
fn as_bytes(part: Part) -> Result<&[u8], ArgumentFault>
    ensures exact { GivesAs (λ bytes. bytes.now) result (as_bytes (piece part.entry)) }
{
    match part {
        Part::Text { bytes, .. } => Ok(bytes),
        Part::Number { .. } | Part::Enter { .. } | Part::Leave { .. } | Part::Variant { .. } => {
            Err(ArgumentFault::OutOfForm)
        }
    }
}

/// The beginning of an array, a structure or a dict entry.
fn as_enter(part: Part) -> Result<(), ArgumentFault>
    ensures exact { GivesAs (λ _. tt) result (as_enter (piece part.entry)) }
{
    match part {
        Part::Enter { .. } => Ok(()),
        Part::Number { .. } | Part::Text { .. } | Part::Leave { .. } | Part::Variant { .. } => {
            Err(ArgumentFault::OutOfForm)
        }
    }
}

/// The end of an array, a structure or a dict entry.
fn as_leave(part: Part) -> Result<(), ArgumentFault>
    ensures exact { GivesAs (λ _. tt) result (as_leave (piece part.entry)) }
{
    match part {
        Part::Leave { .. } => Ok(()),
        Part::Number { .. } | Part::Text { .. } | Part::Enter { .. } | Part::Variant { .. } => {
            Err(ArgumentFault::OutOfForm)
        }
    }
}

/// A variant.
fn as_variant(part: Part) -> Result<(), ArgumentFault>
    ensures exact { GivesAs (λ _. tt) result (as_variant (piece part.entry)) }
{
    match part {
        Part::Variant { .. } => Ok(()),
        Part::Number { .. } | Part::Text { .. } | Part::Enter { .. } | Part::Leave { .. } => {
            Err(ArgumentFault::OutOfForm)
        }
    }
}

/// The next STRING.
pub fn text(alloc: Global, parts: &mut Parts) -> Result<Text, ArgumentFault>
    ensures exact { Takes text parts.old parts.new result }
{
    let part = part(parts)?;
    let text = as_text(alloc, part)?;
    Ok(text)
}

/// The next UINT32.
pub fn uint32(parts: &mut Parts) -> Result<u32, ArgumentFault>
    ensures exact { Takes uint32 parts.old parts.new result }
{
    let part = part(parts)?;
    let number = as_u32(part)?;
    Ok(number)
}

/// The next UINT64.
pub fn uint64(parts: &mut Parts) -> Result<u64, ArgumentFault>
    ensures exact { Takes uint64 parts.old parts.new result }
{
    let part = part(parts)?;
    let number = as_u64(part)?;
    Ok(number)
}

/// The next STRING, which is an object path.
pub fn path(alloc: Global, parts: &mut Parts) -> Result<Text, ArgumentFault>
    ensures exact { Takes path parts.old parts.new result }
{
    let text = text(alloc, parts)?;
    if is_path(text.bytes()) {
        Ok(text)
    } else {
        Err(ArgumentFault::OutOfForm)
    }
}

/// The bytes of the next text, of any length.
pub fn bytes<'a>(parts: &mut Parts<'a>) -> Result<&'a [u8], ArgumentFault>
    ensures exact { TakesAs (λ bytes. bytes.now) (part_as as_bytes) parts.old parts.new result }
{
    let part = part(parts)?;
    let bytes = as_bytes(part)?;
    Ok(bytes)
}

/// The beginning of an array, a structure or a dict entry.
pub fn enter(parts: &mut Parts) -> Result<(), ArgumentFault>
    ensures exact { TakesAs (λ _. tt) (part_as as_enter) parts.old parts.new result }
{
    let part = part(parts)?;
    as_enter(part)?;
    Ok(())
}

/// The end of an array, a structure or a dict entry.
pub fn leave(parts: &mut Parts) -> Result<(), ArgumentFault>
    ensures exact { TakesAs (λ _. tt) (part_as as_leave) parts.old parts.new result }
{
    let part = part(parts)?;
    as_leave(part)?;
    Ok(())
}

/// A variant, whose value comes next.
pub fn variant(parts: &mut Parts) -> Result<(), ArgumentFault>
    ensures exact { TakesAs (λ _. tt) (part_as as_variant) parts.old parts.new result }
{
    let part = part(parts)?;
    as_variant(part)?;
    Ok(())
}

/// How many containers are open behind a part.
fn open_behind(part: Part, depth: usize) -> Result<usize, ArgumentFault>
    ensures exact { Gives result (open_behind (piece part.entry) depth) }
{
    match part {
        Part::Enter { .. } => {
            if depth < DEEPEST {
                Ok(depth + 1)
            } else {
                Err(ArgumentFault::OutOfForm)
            }
        }
        Part::Leave { .. } => Ok(depth.saturating_sub(1)),
        Part::Number { .. } | Part::Text { .. } | Part::Variant { .. } => Ok(depth),
    }
}

/// Goes behind so many open containers.
#[tactic(auto, using(crate::proofs::Behind::behind_rules))]
pub fn behind(parts: &mut Parts, depth: usize) -> Result<(), ArgumentFault>
    ensures exact { TakesAs (λ _. tt) (behind depth) parts.old parts.new result }
{
    let mut left = depth;
    while left != 0 {
        let part = part(parts)?;
        left = open_behind(part, left)?;
    }
    Ok(())
}
