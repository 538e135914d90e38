// Reading escaped texts.
ghost use Rattle.std.specs.Prelude.{◌≡◌, ◌<◌, ◌≤◌, [], List, ℕ, length, Option, Some, None, IfSome, IfNone, IfOk, MatchOption, nat_le};
ghost use Rattle.audit_words.specs.Escapes.{digit_value, escape_of, first_byte, unescaped, text_unless, text_if, text_value, kept_if, is_nothing};
ghost use Rattle.pk_types.specs.Text.{text_fault_of};
ghost use Rattle.pk_types.specs.ActionId.{id_fault_of};
ghost use Rattle.audit_words.specs.Reads.{WordGives};
ghost use Rattle.audit_words.specs.declared.fault.Kind.TheVariants.{Value};

use crate::digits::Letters;
use crate::fault::{Kind, Stop};
use crate::writing::is_plain_byte;
use pk_types::{ActionId, IdFault, NoMemory, Text, TextFault};
use std::alloc::Global;

/// The greatest number of bytes of a user's or a group's name.
pub const MAX_NAME: usize = 4096;

/// The byte for which two digits stand, where it is one that is escaped.
fn escape<'a>(high: u8, low: u8, rest: &'a [u8]) -> Option<(u8, &'a [u8])>
    ensures some { IfSome result (λ x. escape_of (digit_value high) (digit_value low) rest.now ≡ Some (x.0, x.1.now)) }
    ensures rest { IfSome result (λ x. x.1.now ≡ rest.now) }
    ensures none { IfNone result (escape_of (digit_value high) (digit_value low) rest.now ≡ None) }
{
    match Letters::Upper.value(high) {
        None => None,
        Some(high) => match Letters::Upper.value(low) {
            None => None,
            Some(low) => {
                let b = high * 16 + low;
                if is_plain_byte(b) {
                    None
                } else {
                    Some((b, rest))
                }
            }
        },
    }
}

/// The byte that stands first in an escaped text, and what follows.
fn next_byte(word: &[u8]) -> Option<(u8, &[u8])>
    ensures some { IfSome result (λ x. first_byte word.now ≡ Some (x.0, x.1.now)) }
    ensures less { IfSome result (λ x. length x.1.now < length word.now) }
    ensures none { IfNone result (first_byte word.now ≡ None) }
{
    match word {
        [] => None,
        [b, rest @ ..] => {
            if is_plain_byte(*b) {
                Some((*b, rest))
            } else if *b == b'%' {
                match rest {
                    [high, low, rest @ ..] => escape(*high, *low, rest),
                    _ => None,
                }
            } else {
                None
            }
        }
    }
}

/// The bytes of which a word is the escaped form, and `None` where there are none.
fn unescape(alloc: Global, word: &[u8]) -> Result<Option<Vec<u8>>, NoMemory>
    ensures bytes { IfOk result (λ found. MatchOption found (unescaped word.now ≡ None) (λ v. unescaped word.now ≡ Some v.items)) }
{
    let mut bytes = Vec::new(alloc);
    let mut rest = word;
    while !rest.is_empty() {
        match next_byte(rest) {
            Some((b, behind)) => {
                bytes.push(b)?;
                rest = behind;
            }
            None => return Ok(None),
        }
    }
    Ok(Some(bytes))
}

/// The text of these bytes.
fn text_of_bytes(alloc: Global, bytes: &[u8]) -> Result<Text, Stop>
    ensures text { WordGives result Value (text_unless (text_fault_of bytes.now) bytes.now) }
{
    match Text::try_from_bytes(alloc, bytes) {
        Ok(text) => Ok(text),
        Err(TextFault::NoMemory) => Err(Stop::Memory),
        Err(TextFault::TooLong { .. }) => Err(Stop::Fault(Kind::Value)),
        Err(TextFault::BadByte { .. }) => Err(Stop::Fault(Kind::Value)),
    }
}

/// The text whose escaped form a word is.
fn text_if_escaped(alloc: Global, word: &[u8]) -> Result<Text, Stop>
    ensures text { WordGives result Value (text_if (unescaped word.now)) }
{
    match unescape(alloc, word)? {
        None => Err(Stop::Fault(Kind::Value)),
        Some(bytes) => text_of_bytes(alloc, &bytes),
    }
}

/// The text that a word spells.
pub fn read_text(alloc: Global, word: &[u8]) -> Result<Text, Stop>
    ensures text { WordGives result Value (text_value word.now) }
{
    match word {
        [] => Err(Stop::Fault(Kind::Value)),
        [b'%'] => Ok(Text::new(alloc)),
        _ => text_if_escaped(alloc, word),
    }
}

/// The name of a user or a group that a word spells.
pub fn read_short_text(alloc: Global, word: &[u8]) -> Result<Text, Stop>
    ensures text { WordGives result Value (kept_if (λ t. nat_le (length t) MAX_NAME) (text_value word.now)) }
    ensures short { IfOk result (λ name. length name ≤ MAX_NAME) }
{
    let text = read_text(alloc, word)?;
    if text.bytes().len() <= MAX_NAME {
        Ok(text)
    } else {
        Err(Stop::Fault(Kind::Value))
    }
}

/// The action id that a text is.
fn id_of_text(text: &Text) -> Result<ActionId, Stop>
    ensures id { WordGives result Value (kept_if (λ t. is_nothing (id_fault_of t)) (Some text.now)) }
{
    match ActionId::read(text) {
        Ok(id) => Ok(id),
        Err(IdFault::NoMemory) => Err(Stop::Memory),
        Err(_) => Err(Stop::Fault(Kind::Value)),
    }
}

/// The action id that a word spells.
pub fn read_action_id(alloc: Global, word: &[u8]) -> Result<ActionId, Stop>
    ensures id { WordGives result Value (kept_if (λ t. is_nothing (id_fault_of t)) (text_value word.now)) }
{
    let text = read_text(alloc, word)?;
    id_of_text(&text)
}
