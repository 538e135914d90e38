// References, and the characters that they stand for.
ghost use Rattle.std.specs.Prelude.{◌≡◌, ◌≤◌, ◌<◌, IfSome, IfErr, OnOk, ◌++◌, length, drop, option_map, option_and_then, encode_utf8};
ghost use Rattle.xml_pieces.specs.declared.fault.Stop.TheVariants as stop;
ghost use Rattle.xml_pieces.specs.Reading.{Gives};
ghost use Rattle.xml_pieces.specs.References.{decimal_digit, hex_digit, with_digit, number, character, numbered, numbered_if, referred, is_body, behind_body, with_reference};

use crate::bytes::{before, behind, is_space};
use crate::fault::{Stop, cut_off, malformed};

/// One more than the last character.
const BEYOND: u32 = 1_114_112;

fn decimal_digit(b: u8) -> Option<u32>
    ensures value { result ≡ decimal_digit b }
    ensures low { IfSome result (λ d. d < 256) }
{
    if b'0' <= b && b <= b'9' {
        Some(u32::from(b - b'0'))
    } else {
        None
    }
}

fn hex_digit(b: u8) -> Option<u32>
    ensures value { result ≡ hex_digit b }
    ensures low { IfSome result (λ d. d < 256) }
{
    if b'0' <= b && b <= b'9' {
        Some(u32::from(b - b'0'))
    } else if b'a' <= b && b <= b'f' {
        Some(u32::from(b - 87))
    } else if b'A' <= b && b <= b'F' {
        Some(u32::from(b - 55))
    } else {
        None
    }
}

/// The number with one more digit. One beyond the last character stays there.
fn with_digit(base: u32, n: u32, digit: u32) -> u32
    requires base { base ≤ 16 }
    requires n { n ≤ BEYOND }
    requires digit { digit < 256 }
    ensures value { result ≡ with_digit base n digit }
    ensures within { result ≤ BEYOND }
{
    (n * base + digit).min(BEYOND)
}

fn decimal(digits: &[u8]) -> Option<u32>
    ensures value { result ≡ number decimal_digit 10 digits.now }
{
    if digits.is_empty() {
        return None;
    }
    let mut n: u32 = 0;
    let mut rest = digits;
    while let Some((b, behind)) = rest.split_first() {
        let d = decimal_digit(*b)?;
        n = with_digit(10, n, d);
        rest = behind;
    }
    Some(n)
}

fn hexadecimal(digits: &[u8]) -> Option<u32>
    ensures value { result ≡ number hex_digit 16 digits.now }
{
    if digits.is_empty() {
        return None;
    }
    let mut n: u32 = 0;
    let mut rest = digits;
    while let Some((b, behind)) = rest.split_first() {
        let d = hex_digit(*b)?;
        n = with_digit(16, n, d);
        rest = behind;
    }
    Some(n)
}

/// The scalar of that number, unless it is 0.
fn scalar(n: u32) -> Option<char>
    ensures char { option_map encode_utf8 result ≡ character n }
{
    if n == 0 {
        return None;
    }
    char::from_u32(n)
}

/// The number behind `#`.
fn numbered(digits: &[u8]) -> Option<u32>
    ensures char { option_and_then character result ≡ numbered digits.now }
{
    let (first, behind) = digits.split_first()?;
    if *first == b'x' {
        hexadecimal(behind)
    } else {
        decimal(digits)
    }
}

/// The character that stands between `&` and `;`.
#[tactic(auto, unfolding(crate::specs::References::referred))]
fn referred(body: &[u8]) -> Option<char>
    ensures char { option_map encode_utf8 result ≡ referred body.now }
{
    if body == b"lt".as_slice() {
        Some('<')
    } else if body == b"gt".as_slice() {
        Some('>')
    } else if body == b"amp".as_slice() {
        Some('&')
    } else if body == b"apos".as_slice() {
        Some('\'')
    } else if body == b"quot".as_slice() {
        Some('"')
    } else {
        let (first, digits) = body.split_first()?;
        if *first != b'#' {
            return None;
        }
        scalar(numbered(digits)?)
    }
}

fn is_body(b: u8) -> bool
    ensures class { result ≡ is_body b }
{
    !(b == b';' || b == b'<' || b == b'&' || b == b'"' || b == b'\'' || is_space(b))
}

fn behind_body(bytes: &[u8]) -> &[u8]
    ensures rest { result.now ≡ behind_body bytes.now }
{
    let mut rest = bytes;
    while let Some((b, behind)) = rest.split_first() {
        if !is_body(*b) {
            return rest;
        }
        rest = behind;
    }
    rest
}

/// Puts the character at the end.
fn push_character(text: &mut Vec<u8>, c: char) -> Result<(), Stop>
    ensures ok { OnOk result (text.new.items ≡ text.old.items ++ encode_utf8 c) }
    ensures err { IfErr result (λ e. e ≡ stop.Memory) }
{
    let mut bytes = [0u8; 4];
    text.extend_from_slice(c.encode_utf8(&mut bytes).as_bytes())?;
    Ok(())
}

/// Takes the reference at the front: what it stands for is put at the end of the text.
#[tactic(auto, unfolding(crate::specs::References::reference))]
pub fn reference<'a>(here: &'a [u8], text: &mut Vec<u8>) -> Result<&'a [u8], Stop>
    ensures exact { Gives (λ x. (text.new.items, x.now)) result (with_reference text.old.items here.now) }
{
    let body = behind(1, here);
    let rest = behind_body(body);
    let Some((end, after)) = rest.split_first() else {
        return Err(cut_off());
    };
    if *end != b';' {
        return Err(malformed(here));
    }
    let Some(c) = referred(before(rest, body)) else {
        return Err(malformed(here));
    };
    push_character(text, c)?;
    Ok(after)
}
