// Texts, object paths and signatures, and the values of basic types.
ghost use Rattle.std.specs.Prelude.{◌≡◌, ◌+◌, ◌-◌, ◌<◌, ◌≤◌, ◌==◌, length, drop};
ghost use Rattle.std.specs.List.{list_any};
ghost use Rattle.std.specs.Str.{is_utf8};
ghost use Rattle.dbus_values.specs.Reading.{Gives};
ghost use Rattle.dbus_values.specs.Parts.{spot, piece};
ghost use Rattle.dbus_values.specs.Parts as part;
ghost use Rattle.dbus_values.specs.Basics.{is_text, ended, text_at, signature_at, is_path_byte, path_goes_on, is_path, string_at, leaf_at};

use crate::basics::{byte_at, u16_at, u32_at, u64_at};
use crate::class::Class;
use crate::cursor::Cursor;
use crate::fault::{Fault, FaultKind};
use crate::part::Part;
use crate::signature::is_signature;

/// Whether there is a byte 0.
fn has_zero(bytes: &[u8]) -> bool
    ensures exact { result ≡ list_any (λ b. b == 0) bytes.now }
{
    bytes.iter().any(|b| *b == 0)
}

/// Whether the bytes are UTF-8.
#[tactic(auto, using(crate::proofs::Texts::utf8_tests))]
fn is_utf8(bytes: &[u8]) -> bool
    ensures exact { result ≡ is_utf8 bytes.now }
{
    match std::str::from_utf8(bytes) {
        Ok(_) => true,
        Err(_) => false,
    }
}

/// Whether the bytes are UTF-8 without a byte 0.
pub fn is_text(bytes: &[u8]) -> bool
    ensures exact { result ≡ is_text bytes.now }
{
    !has_zero(bytes) && is_utf8(bytes)
}

/// n bytes and the byte 0 behind them, of a text that begins with its length at `at`.
#[inline(always)]
#[tactic(auto, unfolding(crate::specs::Basics::ended))]
fn ended(at: usize, n: usize, from: Cursor) -> Result<(&[u8], Cursor), Fault>
    ensures exact { Gives (λ (bytes, behind). (bytes.now, spot behind)) result (ended at n from.entry.at from.entry.rest.now) }
{
    if n < from.rest.len() {
        if from.rest[n] == 0 {
            return Ok((&from.rest[..n], from.ahead(n + 1)));
        }
        return Err(Fault::new(FaultKind::Text, at));
    }
    Err(Fault::new(FaultKind::Length, at))
}

/// A text behind its length.
#[inline(always)]
#[tactic(auto, unfolding(crate::specs::Basics::text_at))]
fn text_at(big: bool, from: Cursor) -> Result<(&[u8], Cursor), Fault>
    ensures exact { Gives (λ (bytes, behind). (bytes.now, spot behind)) result (text_at big from.entry.at from.entry.rest.now) }
{
    let (n, rest) = u32_at(big, from)?;
    let (text, rest) = ended(from.at, n as usize, rest)?;
    if is_text(text) {
        Ok((text, rest))
    } else {
        Err(Fault::new(FaultKind::Text, from.at))
    }
}

/// A signature behind its length.
#[inline(always)]
#[tactic(auto, unfolding(crate::specs::Basics::signature_at))]
pub fn signature_at(from: Cursor) -> Result<(&[u8], Cursor), Fault>
    ensures exact { Gives (λ (bytes, behind). (bytes.now, spot behind)) result (signature_at from.entry.at from.entry.rest.now) }
{
    let (n, rest) = byte_at(from)?;
    let (text, rest) = ended(from.at, n as usize, rest)?;
    if is_signature(text) {
        Ok((text, rest))
    } else {
        Err(Fault::new(FaultKind::Text, from.at))
    }
}

fn is_path_byte(b: u8) -> bool
    ensures exact { result ≡ is_path_byte b }
{
    matches!(b, b'a'..=b'z' | b'A'..=b'Z' | b'0'..=b'9' | b'_')
}

/// Whether the rest of a path is one, behind a / or not.
fn path_goes_on(slash: bool, path: &[u8]) -> bool
    ensures exact { result ≡ path_goes_on slash path.now }
{
    let mut slash = slash;
    for b in path {
        if *b == b'/' {
            if slash {
                return false;
            }
            slash = true;
        } else {
            if !is_path_byte(*b) {
                return false;
            }
            slash = false;
        }
    }
    !slash
}

/// Whether the bytes are an object path: `/` alone, or parts of ASCII letters, digits and `_`, at
/// least one byte each, with a `/` before each and none behind the last (the D-Bus Specification,
/// "Valid Object Paths").
pub fn is_path(bytes: &[u8]) -> bool
    ensures exact { result ≡ is_path bytes.now }
{
    match bytes {
        [] => false,
        [b] => *b == b'/',
        [b, path @ ..] => *b == b'/' && path_goes_on(true, path),
    }
}

/// A text, an object path or a signature, from its first byte.
#[inline(always)]
#[tactic(auto, unfolding(crate::specs::Basics::string_at))]
pub fn string_at(class: Class, big: bool, from: Cursor) -> Result<(&[u8], Cursor), Fault>
    ensures exact { Gives (λ (bytes, behind). (bytes.now, spot behind)) result (string_at class big from.entry.at from.entry.rest.now) }
{
    match class {
        Class::Text => text_at(big, from),
        Class::Path => {
            let (text, rest) = text_at(big, from)?;
            if is_path(text) {
                Ok((text, rest))
            } else {
                Err(Fault::new(FaultKind::Text, from.at))
            }
        }
        Class::Signature => signature_at(from),
        Class::Byte
        | Class::Half
        | Class::Boolean
        | Class::Word
        | Class::Long
        | Class::Array
        | Class::Struct
        | Class::Entry
        | Class::Variant
        | Class::Other => Err(Fault::new(FaultKind::Text, from.at)),
    }
}

/// A number as a part.
fn number_part<'a>(kind: u8, value: u64) -> Part<'a>
    ensures { piece result ≡ part.Number kind value }
{
    Part::Number { kind, value }
}

/// A value of a basic type, from its first byte.
#[inline(always)]
#[tactic(auto, unfolding(crate::specs::Basics::leaf_at))]
pub fn leaf_at(class: Class, big: bool, kind: u8, from: Cursor) -> Result<(Part, Cursor), Fault>
    ensures exact { Gives (λ (part, behind). (piece part, spot behind)) result (leaf_at class big kind from.entry.at from.entry.rest.now) }
{
    match class {
        Class::Byte => {
            let (n, rest) = byte_at(from)?;
            Ok((number_part(kind, u64::from(n)), rest))
        }
        Class::Half => {
            let (n, rest) = u16_at(big, from)?;
            Ok((number_part(kind, u64::from(n)), rest))
        }
        Class::Boolean => {
            let (n, rest) = u32_at(big, from)?;
            if n < 2 {
                Ok((number_part(kind, u64::from(n)), rest))
            } else {
                Err(Fault::new(FaultKind::Bool, from.at))
            }
        }
        Class::Word => {
            let (n, rest) = u32_at(big, from)?;
            Ok((number_part(kind, u64::from(n)), rest))
        }
        Class::Long => {
            let (value, rest) = u64_at(big, from)?;
            Ok((number_part(kind, value), rest))
        }
        Class::Text
        | Class::Path
        | Class::Signature
        | Class::Array
        | Class::Struct
        | Class::Entry
        | Class::Variant
        | Class::Other => {
            let (bytes, rest) = string_at(class, big, from)?;
            Ok((Part::Text { kind, bytes }, rest))
        }
    }
}
