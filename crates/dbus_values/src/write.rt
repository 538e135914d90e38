// Values as bytes, little-endian.
ghost use Rattle.std.specs.Prelude.{◌≡◌, ◌+◌, ◌<◌, ◌≤◌, ◌^◌, ◌++◌, [], ◌∷◌, length, take, drop, OnOk, false};
ghost use Rattle.std.specs.Int.{w32, w64};
ghost use Rattle.dbus_values.specs.declared.codes.TheConstants.{MAX_MESSAGE};
ghost use Rattle.dbus_values.specs.Basics.{gap};
ghost use Rattle.dbus_values.specs.Trees.{padding, bytes_of, type_of, marshalled, all_marshalled, text_bytes};
ghost use Rattle.dbus_values.specs.Written.{tree, list_trees, HasForm};

use crate::basics::gap;
use crate::signature::item_align;
use crate::value::{Value, ValueList};
use pk_types::Text;
use std::alloc::{AllocError, Global};

/// How many bytes there are.
pub fn length_of(out: &Vec<u8>) -> usize
    ensures exact { result ≡ length out.now.items }
{
    out.len()
}

/// So many bytes 0.
fn put_zeros(out: &mut Vec<u8>, n: usize) -> Result<(), AllocError>
    requires { n < 8 }
    ensures exact { OnOk result (out.new.items ≡ out.old.items ++ padding n) }
{
    for _i in 0..n {
        out.extend_from_slice(&[0])?;
    }
    Ok(())
}

/// Padding up to the next multiple of n.
pub fn pad_to(out: &mut Vec<u8>, n: usize) -> Result<(), AllocError>
    requires low { 0 < n }
    requires high { n ≤ 8 }
    ensures exact { OnOk result (out.new.items ≡ out.old.items ++ padding (gap n (length out.old.items))) }
{
    let zeros = gap(n, out.len());
    put_zeros(out, zeros)
}

/// A byte.
pub fn put_byte(out: &mut Vec<u8>, byte: u8) -> Result<(), AllocError>
    ensures exact { OnOk result (out.new.items ≡ out.old.items ++ byte ∷ []) }
{
    out.extend_from_slice(&[byte])
}

/// A number of four bytes.
pub fn put_u32(out: &mut Vec<u8>, n: u32) -> Result<(), AllocError>
    ensures exact { OnOk result (out.new.items ≡ out.old.items ++ bytes_of false w32 n) }
{
    out.extend_from_slice(&n.to_le_bytes())
}

/// A number of eight bytes.
fn put_u64(out: &mut Vec<u8>, n: u64) -> Result<(), AllocError>
    ensures exact { OnOk result (out.new.items ≡ out.old.items ++ bytes_of false w64 n) }
{
    out.extend_from_slice(&n.to_le_bytes())
}

/// Puts a number of four bytes in the place of four bytes.
pub fn patch(out: &mut Vec<u8>, at: usize, n: u32)
    requires { at + 4 ≤ length out.old.items }
    ensures exact { out.new.items ≡ take at out.old.items ++ (bytes_of false w32 n ++ drop (at + 4) out.old.items) }
{
    let bytes = n.to_le_bytes();
    out[at] = bytes[0];
    out[at + 1] = bytes[1];
    out[at + 2] = bytes[2];
    out[at + 3] = bytes[3];
}

/// A text behind its length, from its first byte.
pub fn put_text(out: &mut Vec<u8>, text: &[u8]) -> Result<(), AllocError>
    requires { length text.now < 2 ^ 32 }
    ensures exact { OnOk result (out.new.items ≡ out.old.items ++ (bytes_of false w32 (length text.now) ++ (text.now ++ 0 ∷ []))) }
{
    put_u32(out, text.len() as u32)?;
    out.extend_from_slice(text)?;
    put_byte(out, 0)
}

/// A signature behind its length, from its first byte.
pub fn put_signature(out: &mut Vec<u8>, signature: &[u8]) -> Result<(), AllocError>
    requires { length signature.now < 256 }
    ensures exact { OnOk result (out.new.items ≡ out.old.items ++ (length signature.now ∷ (signature.now ++ 0 ∷ []))) }
{
    put_byte(out, signature.len() as u8)?;
    out.extend_from_slice(signature)?;
    put_byte(out, 0)
}

/// The type of a value.
#[tactic(auto, using(crate::proofs::Writing::type_rules))]
pub fn put_type(out: &mut Vec<u8>, value: &Value) -> Result<(), AllocError>
    ensures exact { OnOk result (out.new.items ≡ out.old.items ++ type_of (tree value.now)) }
{
    match value {
        Value::Bool(_) => put_byte(out, b'b'),
        Value::U32(_) => put_byte(out, b'u'),
        Value::U64(_) => put_byte(out, b't'),
        Value::Text(_) => put_byte(out, b's'),
        Value::Array { of, .. } => {
            put_byte(out, b'a')?;
            out.extend_from_slice(of.bytes())
        }
        Value::Struct(items) => {
            put_byte(out, b'(')?;
            for item in &items.items {
                put_type(out, item)?;
            }
            put_byte(out, b')')
        }
        Value::Entry(key, value) => {
            put_byte(out, b'{')?;
            put_type(out, key)?;
            put_type(out, value)?;
            put_byte(out, b'}')
        }
        Value::Variant(_) => put_byte(out, b'v'),
    }
}

/// A number of four bytes, with the padding before it.
fn put_padded_u32(out: &mut Vec<u8>, n: u32) -> Result<(), AllocError>
    ensures exact { OnOk result (out.new.items ≡ out.old.items ++ (padding (gap 4 (length out.old.items)) ++ bytes_of false w32 n)) }
{
    pad_to(out, 4)?;
    put_u32(out, n)
}

/// A number of eight bytes, with the padding before it.
fn put_padded_u64(out: &mut Vec<u8>, n: u64) -> Result<(), AllocError>
    ensures exact { OnOk result (out.new.items ≡ out.old.items ++ (padding (gap 8 (length out.old.items)) ++ bytes_of false w64 n)) }
{
    pad_to(out, 8)?;
    put_u64(out, n)
}

/// A text behind its length, with the padding before it.
fn put_padded_text(out: &mut Vec<u8>, text: &Text) -> Result<(), AllocError>
    ensures exact { OnOk result (out.new.items ≡ out.old.items ++ (padding (gap 4 (length out.old.items)) ++ (bytes_of false w32 (length text.now) ++ (text.now ++ 0 ∷ [])))) }
{
    pad_to(out, 4)?;
    put_text(out, text.bytes())
}

/// A value, with the padding before it.
#[tactic(auto, using(crate::proofs::Writing::value_rules))]
pub fn put_value(alloc: Global, out: &mut Vec<u8>, value: &Value) -> Result<(), AllocError>
    requires form { HasForm (tree value.now) }
    requires short { length out.old.items + length (marshalled false (length out.old.items) (tree value.now)) ≤ MAX_MESSAGE }
    ensures exact { OnOk result (out.new.items ≡ out.old.items ++ marshalled false (length out.old.items) (tree value.now)) }
{
    match value {
        Value::Bool(truth) => put_padded_u32(out, u32::from(*truth)),
        Value::U32(n) => put_padded_u32(out, *n),
        Value::U64(n) => put_padded_u64(out, *n),
        Value::Text(text) => put_padded_text(out, text),
        Value::Array { of, items } => {
            pad_to(out, 4)?;
            let at = length_of(out);
            put_u32(out, 0)?;
            pad_to(out, item_align(of.bytes()))?;
            let start = length_of(out);
            for item in &items.items {
                put_value(alloc, out, item)?;
            }
            let size = length_of(out) - start;
            patch(out, at, size as u32);
            Ok(())
        }
        Value::Struct(members) => {
            pad_to(out, 8)?;
            for member in &members.items {
                put_value(alloc, out, member)?;
            }
            Ok(())
        }
        Value::Entry(key, mapped) => {
            pad_to(out, 8)?;
            put_value(alloc, out, key)?;
            put_value(alloc, out, mapped)
        }
        Value::Variant(inner) => {
            let mut signature = Vec::new(alloc);
            put_type(&mut signature, inner)?;
            put_signature(out, &signature)?;
            put_value(alloc, out, inner)
        }
    }
}
