// Messages as bytes, little-endian.
ghost use Rattle.std.specs.Prelude.{◌≡◌, ◌+◌, ◌<◌, ◌≤◌, ◌^◌, ◌++◌, ◌⊎◌, [], ◌∷◌, List, ℕ, length, OnOk, IfOk, false};
ghost use Rattle.std.specs.Int.{w32};
ghost use Rattle.dbus_values.specs.declared.codes.TheConstants.{MAX_MESSAGE};
ghost use Rattle.dbus_values.specs.Trees.{bytes_of, types_of, marshalled, all_marshalled};
ghost use Rattle.dbus_values.specs.Next.{Whole, next_of};
ghost use Rattle.dbus_values.specs.Form.{fields_bytes, message_bytes, IsMessage, WireForm, shown_of};
ghost use Rattle.dbus_values.specs.Written.{list_trees, AllForm, text_field, number_field, signature_field, fields_out, message_out};

use crate::codes::{ERROR_NAME, INTERFACE, MEMBER, PATH, REPLY_SERIAL, SIGNATURE};
use crate::value::ValueList;
use crate::wire_out::WireOut;
use crate::write::{
    length_of, pad_to, patch, put_byte, put_signature, put_text, put_type, put_u32, put_value,
};
use pk_types::{ByteList, NoMemory, Text};
use std::alloc::{AllocError, Global};

/// Room for the bytes of most messages, so that they seldom have to be moved.
const MOST_ARE_SHORTER: usize = 256;

/// A field of a text type, where there is one.
fn put_text_field(
    out: &mut Vec<u8>,
    code: u8,
    letter: u8,
    text: &Option<Text>,
) -> Result<(), AllocError>
    requires letter { (letter ≡ 111) ⊎ (letter ≡ 115) }
    requires short { length out.old.items + length (fields_bytes false (length out.old.items) (text_field code letter text.now)) ≤ MAX_MESSAGE }
    ensures exact { OnOk result (out.new.items ≡ out.old.items ++ fields_bytes false (length out.old.items) (text_field code letter text.now)) }
{
    match text {
        None => Ok(()),
        Some(text) => {
            pad_to(out, 8)?;
            put_byte(out, code)?;
            put_signature(out, &[letter])?;
            pad_to(out, 4)?;
            put_text(out, text.bytes())
        }
    }
}

/// REPLY_SERIAL, where there is one.
fn put_number_field(out: &mut Vec<u8>, number: Option<u32>) -> Result<(), AllocError>
    ensures exact { OnOk result (out.new.items ≡ out.old.items ++ fields_bytes false (length out.old.items) (number_field number)) }
{
    match number {
        None => Ok(()),
        Some(number) => {
            pad_to(out, 8)?;
            put_byte(out, REPLY_SERIAL)?;
            put_signature(out, b"u")?;
            pad_to(out, 4)?;
            put_u32(out, number)
        }
    }
}

/// SIGNATURE, where the body is not empty.
fn put_signature_field(out: &mut Vec<u8>, signature: &[u8]) -> Result<(), AllocError>
    requires { length signature.now < 256 }
    ensures exact { OnOk result (out.new.items ≡ out.old.items ++ fields_bytes false (length out.old.items) (signature_field signature.now)) }
{
    if signature.is_empty() {
        return Ok(());
    }
    pad_to(out, 8)?;
    put_byte(out, SIGNATURE)?;
    put_signature(out, b"g")?;
    put_signature(out, signature)
}

/// The header fields by rising code, those that there are.
fn put_fields(out: &mut Vec<u8>, message: &WireOut, signature: &[u8]) -> Result<(), AllocError>
    requires signature { signature.now ≡ types_of (list_trees message.now.body.items.items) }
    requires letters { length signature.now < 256 }
    requires short { length out.old.items + length (fields_bytes false (length out.old.items) (fields_out message.now)) ≤ MAX_MESSAGE }
    ensures exact { OnOk result (out.new.items ≡ out.old.items ++ fields_bytes false (length out.old.items) (fields_out message.now)) }
{
    put_text_field(out, PATH, b'o', &message.fields.path)?;
    put_text_field(out, INTERFACE, b's', &message.fields.interface)?;
    put_text_field(out, MEMBER, b's', &message.fields.member)?;
    put_text_field(out, ERROR_NAME, b's', &message.fields.error_name)?;
    put_number_field(out, message.fields.reply_serial)?;
    put_signature_field(out, signature)
}

/// The types of values, one after the other.
#[tactic(auto, using(crate::proofs::Writing::type_rules))]
fn put_types(out: &mut Vec<u8>, values: &ValueList) -> Result<(), AllocError>
    ensures exact { OnOk result (out.new.items ≡ out.old.items ++ types_of (list_trees values.now.items.items)) }
{
    for item in &values.items {
        put_type(out, item)?;
    }
    Ok(())
}

/// Values, one after the other.
#[tactic(auto, using(crate::proofs::Writing::value_rules))]
fn put_values(alloc: Global, out: &mut Vec<u8>, values: &ValueList) -> Result<(), AllocError>
    requires forms { AllForm values.now.items.items }
    requires short { length (out.old.items ++ all_marshalled false (length out.old.items) (list_trees values.now.items.items)) ≤ MAX_MESSAGE }
    ensures exact { OnOk result (out.new.items ≡ out.old.items ++ all_marshalled false (length out.old.items) (list_trees values.now.items.items)) }
{
    for item in &values.items {
        put_value(alloc, out, item)?;
    }
    Ok(())
}

/// The first 16 bytes, with 0 for the two lengths.
fn put_start(out: &mut Vec<u8>, message: &WireOut, serial: u32) -> Result<(), AllocError>
    ensures exact { OnOk result (out.new.items ≡ out.old.items ++ (108 ∷ message.now.kind ∷ message.now.flags ∷ 1 ∷ (bytes_of false w32 0 ++ (bytes_of false w32 serial ++ bytes_of false w32 0)))) }
{
    out.extend_from_slice(&[b'l', message.kind, message.flags, 1])?;
    put_u32(out, 0)?;
    put_u32(out, serial)?;
    put_u32(out, 0)
}

/// Writes a message, little-endian, under a serial. The header fields stand by rising code, with
/// SIGNATURE where the body isn't empty.
///
/// The message has to be one that has a form: with the fields that its type needs, a body of at
/// most 64 containers inside each other, the items of each array of the array's type, and at most
/// 16,777,216 bytes in all.
pub fn write_message(alloc: Global, out: &WireOut, serial: u32) -> Result<ByteList, NoMemory>
    requires { IsMessage false (message_out out.now serial) }
    // The bytes are those of the message.
    ensures exact { IfOk result (λ bytes. bytes ≡ message_bytes false (message_out out.now serial)) }
    // They have the form of the message.
    ensures form { IfOk result (λ bytes. WireForm bytes (message_out out.now serial)) }
    // What was written is read again, whatever follows it.
    ensures again { IfOk result (λ bytes. (more : List ℕ) → next_of (bytes ++ more) ≡ Whole (shown_of (message_out out.now serial)) (length bytes)) }
{
    let mut signature = Vec::new(alloc);
    put_types(&mut signature, &out.body)?;
    let mut bytes = Vec::with_capacity(alloc, MOST_ARE_SHORTER)?;
    put_start(&mut bytes, out, serial)?;
    put_fields(&mut bytes, out, &signature)?;
    let fields = length_of(&bytes) - 16;
    pad_to(&mut bytes, 8)?;
    let begin = length_of(&bytes);
    put_values(alloc, &mut bytes, &out.body)?;
    let size = length_of(&bytes) - begin;
    patch(&mut bytes, 4, size as u32);
    patch(&mut bytes, 12, fields as u32);
    Ok(ByteList::from_vec(bytes))
}
