// How many bytes a message has, before it is written.
ghost use Rattle.std.specs.Prelude.{◌≡◌, ◌+◌, ◌<◌, ◌≤◌, ◌⊎◌, ℕ, List, length, false};
ghost use Rattle.dbus_values.specs.Capped.{capped};
ghost use Rattle.dbus_values.specs.Basics.{gap};
ghost use Rattle.dbus_values.specs.Trees.{type_of, types_of, marshalled, all_marshalled};
ghost use Rattle.dbus_values.specs.Form.{fields_bytes, message_bytes};
ghost use Rattle.dbus_values.specs.Written.{tree, list_trees, text_field, number_field, signature_field, fields_out, message_out};

use crate::basics::gap;
use crate::codes::{ERROR_NAME, INTERFACE, MEMBER, PATH};
use crate::signature::item_align;
use crate::value::{Value, ValueList};
use crate::wire_out::WireOut;
use pk_types::Text;

/// The next multiple of n.
fn padded(n: usize, at: usize) -> usize
    requires low { 0 < n }
    requires high { n ≤ 8 }
    ensures exact { result ≡ capped (at + gap n at) }
{
    at.saturating_add(gap(n, at))
}

/// Where so many bytes end that begin at the next multiple of n.
fn padded_end(n: usize, at: usize, size: usize) -> usize
    requires low { 0 < n }
    requires high { n ≤ 8 }
    ensures exact { result ≡ capped (at + gap n at + size) }
{
    padded(n, at).saturating_add(size)
}

/// Where a type ends that begins there.
#[tactic(auto, using(crate::proofs::Sizes::letter_rules))]
fn letters_end(at: usize, value: &Value) -> usize
    ensures exact { result ≡ capped (at + length (type_of (tree value.now))) }
{
    match value {
        Value::Bool(_) => at.saturating_add(1),
        Value::U32(_) => at.saturating_add(1),
        Value::U64(_) => at.saturating_add(1),
        Value::Text(_) => at.saturating_add(1),
        Value::Variant(_) => at.saturating_add(1),
        Value::Array { of, .. } => at.saturating_add(1).saturating_add(of.bytes().len()),
        Value::Struct(items) => {
            let mut here = at.saturating_add(1);
            for item in &items.items {
                here = letters_end(here, item);
            }
            here.saturating_add(1)
        }
        Value::Entry(key, mapped) => {
            let here = letters_end(at.saturating_add(1), key);
            letters_end(here, mapped).saturating_add(1)
        }
    }
}

/// Where a value ends, the padding before which begins there.
#[tactic(auto, using(crate::proofs::Sizes::size_rules))]
fn value_end(at: usize, value: &Value) -> usize
    ensures exact { result ≡ capped (at + length (marshalled false at (tree value.now))) }
{
    match value {
        Value::Bool(_) => padded_end(4, at, 4),
        Value::U32(_) => padded_end(4, at, 4),
        Value::U64(_) => padded_end(8, at, 8),
        Value::Text(text) => padded_end(4, at, 5).saturating_add(text.bytes().len()),
        Value::Array { of, items } => {
            let mut here = padded(item_align(of.bytes()), padded_end(4, at, 4));
            for item in &items.items {
                here = value_end(here, item);
            }
            here
        }
        Value::Struct(members) => {
            let mut here = padded(8, at);
            for member in &members.items {
                here = value_end(here, member);
            }
            here
        }
        Value::Entry(key, mapped) => {
            let here = value_end(padded(8, at), key);
            value_end(here, mapped)
        }
        Value::Variant(inner) => {
            let begin = letters_end(at, inner).saturating_add(2);
            value_end(begin, inner)
        }
    }
}

/// Where a field of a text type ends, where there is one.
fn text_field_end(at: usize, code: u8, letter: u8, text: &Option<Text>) -> usize
    requires letter { (letter ≡ 111) ⊎ (letter ≡ 115) }
    ensures exact { result ≡ capped (at + length (fields_bytes false at (text_field code letter text.now))) }
{
    match text {
        None => at,
        Some(text) => padded_end(8, at, 9).saturating_add(text.bytes().len()),
    }
}

/// Where REPLY_SERIAL ends, where there is one.
fn number_field_end(at: usize, number: Option<u32>) -> usize
    ensures exact { result ≡ capped (at + length (fields_bytes false at (number_field number))) }
{
    match number {
        None => at,
        Some(_) => padded_end(8, at, 8),
    }
}

/// Where SIGNATURE ends, of so many letters; there is none for no letter.
fn signature_field_end(at: usize, letters: usize) -> usize
    ensures exact { (sig : List ℕ) → letters ≡ capped (length sig) → result ≡ capped (at + length (fields_bytes false at (signature_field sig))) }
{
    if letters == 0 {
        at
    } else {
        padded_end(8, at, 6).saturating_add(letters)
    }
}

/// Where the header fields end.
fn fields_end(out: &WireOut, letters: usize) -> usize
    requires { letters ≡ capped (length (types_of (list_trees out.now.body.items.items))) }
    ensures exact { result ≡ capped (16 + length (fields_bytes false 16 (fields_out out.now))) }
{
    let path = text_field_end(16, PATH, b'o', &out.fields.path);
    let interface = text_field_end(path, INTERFACE, b's', &out.fields.interface);
    let member = text_field_end(interface, MEMBER, b's', &out.fields.member);
    let error_name = text_field_end(member, ERROR_NAME, b's', &out.fields.error_name);
    let reply_serial = number_field_end(error_name, out.fields.reply_serial);
    signature_field_end(reply_serial, letters)
}

/// How many letters the types of values have.
#[tactic(auto, using(crate::proofs::Sizes::letter_rules))]
fn letters_of(values: &ValueList) -> usize
    ensures exact { result ≡ capped (length (types_of (list_trees values.now.items.items))) }
{
    let mut here = 0;
    for item in &values.items {
        here = letters_end(here, item);
    }
    here
}

/// Where values end, the padding before the first of which begins there.
#[tactic(auto, using(crate::proofs::Sizes::size_rules))]
fn values_end(at: usize, values: &ValueList) -> usize
    ensures exact { result ≡ capped (at + length (all_marshalled false at (list_trees values.now.items.items))) }
{
    let mut here = at;
    for item in &values.items {
        here = value_end(here, item);
    }
    here
}

/// How many bytes [`write_message`](crate::write_message) writes for a message, whatever its
/// serial is; `u64::MAX` where they are more. It takes no memory.
///
/// A message of more than 16,777,216 bytes has no form, and may not be written.
pub fn message_size(out: &WireOut) -> u64
    ensures exact { (serial : ℕ) → result ≡ capped (length (message_bytes false (message_out out.now serial))) }
{
    let letters = letters_of(&out.body);
    let fields = fields_end(out, letters);
    let begin = padded(8, fields);
    values_end(begin, &out.body) as u64
}
