// Signatures.
ghost use Rattle.std.specs.Prelude.{◌≡◌, ◌<◌, ◌≤◌, ◌-◌, length, take};
ghost use Rattle.std.specs.Option.{option_map};
ghost use Rattle.dbus_values.specs.Signatures.{behind, members_end, item_end, entry_end, type_end, after_type, after_item, are_types, is_signature, item_align};

use crate::class::Class;
use crate::cursor::behind_first;

/// What follows this letter.
fn behind(letter: u8, sig: &[u8]) -> Option<&[u8]>
    ensures exact { option_map (λ rest. rest.now) result ≡ behind letter sig.now }
{
    match sig {
        [] => None,
        [c, rest @ ..] => { if *c == letter { Some(rest) } else { None } }
    }
}

/// What follows the members of a structure and its closing letter.
#[cycle(types)]
#[tactic(auto, using(crate::proofs::Loops::members_rules))]
fn members_end(level: u8, arrays: u8, structs: u8, sig: &[u8]) -> Option<&[u8]>
    ensures exact { option_map (λ rest. rest.now) result ≡ members_end (type_end level arrays structs) (length sig.now) sig.now }
{
    let mut here = sig;
    for _i in 0..sig.len() {
        match type_end(level, arrays, structs, here) {
            None => return None,
            Some(rest) => {
                if rest.is_empty() {
                    return None;
                }
                if rest[0] == b')' {
                    return Some(behind_first(rest));
                }
                here = rest;
            }
        }
    }
    None
}

/// What follows the rest of a dict entry.
#[cycle(types)]
fn entry_end(level: u8, arrays: u8, structs: u8, sig: &[u8]) -> Option<&[u8]>
    ensures exact { option_map (λ rest. rest.now) result ≡ entry_end (type_end level arrays structs) sig.now }
{
    match sig {
        [] => None,
        [key, value @ ..] => {
            if Class::of(*key).is_basic() {
                match type_end(level, arrays, structs, value) {
                    None => None,
                    Some(rest) => behind(b'}', rest),
                }
            } else {
                None
            }
        }
    }
}

/// What follows the item of an array.
#[cycle(types)]
fn item_end(level: u8, arrays: u8, structs: u8, sig: &[u8]) -> Option<&[u8]>
    ensures exact { option_map (λ rest. rest.now) result ≡ item_end (type_end level arrays structs) sig.now }
{
    match sig {
        [] => None,
        [b'{', entry @ ..] => entry_end(level, arrays, structs, entry),
        _ => type_end(level, arrays, structs, sig),
    }
}

/// What follows the complete type at the front.
#[cycle(types)]
#[tactic(auto, using(crate::proofs::Loops::type_at), unfolding(crate::specs::Signatures::type_end))]
fn type_end(level: u8, arrays: u8, structs: u8, sig: &[u8]) -> Option<&[u8]>
    ensures exact { option_map (λ rest. rest.now) result ≡ type_end level arrays structs sig.now }
{
    if level == 0 {
        return None;
    }
    if sig.is_empty() {
        return None;
    }
    let inner = behind_first(sig);
    match Class::of(sig[0]) {
        Class::Array => {
            if arrays == 0 {
                None
            } else {
                item_end(level - 1, arrays - 1, structs, inner)
            }
        }
        Class::Struct => {
            if structs == 0 {
                None
            } else {
                members_end(level - 1, arrays, structs - 1, inner)
            }
        }
        Class::Entry | Class::Other => None,
        _ => Some(inner),
    }
}

/// What follows the complete type at the front, in short where it is one letter.
#[inline(always)]
pub fn after_type(sig: &[u8]) -> Option<&[u8]>
    ensures exact { option_map (λ rest. rest.now) result ≡ after_type sig.now }
{
    if sig.is_empty() {
        return None;
    }
    match Class::of(sig[0]) {
        Class::Array | Class::Struct | Class::Entry | Class::Other => type_end(65, 32, 32, sig),
        _ => Some(behind_first(sig)),
    }
}

/// What follows the item of an array.
pub fn after_item(sig: &[u8]) -> Option<&[u8]>
    ensures exact { option_map (λ rest. rest.now) result ≡ after_item sig.now }
{
    item_end(65, 32, 32, sig)
}

/// The front of a signature before its rest.
pub fn front_of<'a>(sig: &'a [u8], end: &[u8]) -> &'a [u8]
    ensures front { result.now ≡ take (length sig.now - length end.now) sig.now }
{
    &sig[..sig.len().saturating_sub(end.len())]
}

/// Whether the bytes are a row of complete types.
#[tactic(auto, using(crate::proofs::Loops::types_rules))]
fn are_types(sig: &[u8]) -> bool
    ensures exact { result ≡ are_types (length sig.now) sig.now }
{
    let mut here = sig;
    for _i in 0..sig.len() {
        if here.is_empty() {
            return true;
        }
        match after_type(here) {
            None => return false,
            Some(rest) => here = rest,
        }
    }
    here.is_empty()
}

/// Whether the bytes are a signature.
pub fn is_signature(sig: &[u8]) -> bool
    ensures exact { result ≡ is_signature sig.now }
{
    sig.len() <= 255 && are_types(sig)
}

/// The alignment of the items of an array.
pub fn item_align(sig: &[u8]) -> usize
    ensures exact { result ≡ item_align sig.now }
    ensures low { 0 < result }
    ensures high { result ≤ 8 }
{
    match sig {
        [] => 1,
        [c, ..] => Class::of(*c).align(),
    }
}
