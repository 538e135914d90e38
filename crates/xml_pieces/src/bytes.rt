// White space, names, and bytes that end something. Each slice reaches to the end of the file.
ghost use Rattle.std.specs.Prelude.{◌≡◌, ◌≤◌, length, drop};
ghost use Rattle.xml_pieces.specs.Reading.{Gives};
ghost use Rattle.xml_pieces.specs.Bytes.{is_space, behind_spaces, is_name_start, is_name_byte, behind_name, before, named, name, behind_byte, is_next, behind_pair, begins, is_cut_word};

use crate::fault::{Stop, cut_off, malformed};

/// A space, a tab, a LF or a CR.
pub fn is_space(b: u8) -> bool
    ensures class { result ≡ is_space b }
{
    b == b' ' || b == b'\t' || b == b'\n' || b == b'\r'
}

/// What follows the white space.
pub fn behind_spaces(bytes: &[u8]) -> &[u8]
    ensures rest { result.now ≡ behind_spaces bytes.now }
{
    let mut rest = bytes;
    while let Some((b, behind)) = rest.split_first() {
        if !is_space(*b) {
            return rest;
        }
        rest = behind;
    }
    rest
}

fn is_name_start(b: u8) -> bool
    ensures class { result ≡ is_name_start b }
{
    (65 <= b && b <= 90) || (97 <= b && b <= 122) || b == b'_' || b == b':' || 128 <= b
}

fn is_name_byte(b: u8) -> bool
    ensures class { result ≡ is_name_byte b }
{
    is_name_start(b) || (48 <= b && b <= 57) || b == b'-' || b == b'.'
}

fn behind_name(bytes: &[u8]) -> &[u8]
    ensures rest { result.now ≡ behind_name bytes.now }
{
    let mut rest = bytes;
    while let Some((b, behind)) = rest.split_first() {
        if !is_name_byte(*b) {
            return rest;
        }
        rest = behind;
    }
    rest
}

/// The bytes before a rest of them.
pub fn before<'a>(rest: &[u8], bytes: &'a [u8]) -> &'a [u8]
    ensures front { result.now ≡ before rest.now bytes.now }
{
    &bytes[..bytes.len().saturating_sub(rest.len())]
}

fn named(bytes: &[u8]) -> Result<(&[u8], &[u8]), Stop>
    ensures exact { Gives (λ (name, rest). (name.now, rest.now)) result (named bytes.now (behind_name bytes.now)) }
{
    let rest = behind_name(bytes);
    if rest.is_empty() {
        return Err(cut_off());
    }
    Ok((before(rest, bytes), rest))
}

/// A name, and the rest. Where none begins the fault is at the place.
#[tactic(auto, unfolding(crate::specs::Bytes::name))]
pub fn name<'a>(place: &[u8], bytes: &'a [u8]) -> Result<(&'a [u8], &'a [u8]), Stop>
    ensures exact { Gives (λ (name, rest). (name.now, rest.now)) result (name place.now bytes.now) }
{
    let Some((first, _)) = bytes.split_first() else {
        return Err(cut_off());
    };
    if !is_name_start(*first) {
        return Err(malformed(place));
    }
    named(bytes)
}

/// What follows this byte. Where another stands the fault is at the place.
#[tactic(auto, unfolding(crate::specs::Bytes::behind_byte))]
pub fn behind_byte<'a>(byte: u8, place: &[u8], bytes: &'a [u8]) -> Result<&'a [u8], Stop>
    ensures exact { Gives (λ x. x.now) result (behind_byte byte place.now bytes.now) }
{
    let Some((first, behind)) = bytes.split_first() else {
        return Err(cut_off());
    };
    if *first == byte {
        Ok(behind)
    } else {
        Err(malformed(place))
    }
}

fn is_next(byte: u8, bytes: &[u8]) -> bool
    ensures next { result ≡ is_next byte bytes.now }
{
    match bytes.split_first() {
        Some((b, _)) => *b == byte,
        None => false,
    }
}

/// What follows the first place where these two bytes stand.
pub fn behind_pair(first: u8, second: u8, bytes: &[u8]) -> Result<&[u8], Stop>
    ensures exact { Gives (λ x. x.now) result (behind_pair first second bytes.now) }
{
    let mut rest = bytes;
    while let Some((a, after)) = rest.split_first() {
        if *a == first && is_next(second, after) {
            return Ok(behind(1, after));
        }
        rest = after;
    }
    Err(cut_off())
}

/// Whether the bytes begin with the word.
pub fn begins(word: &[u8], bytes: &[u8]) -> bool
    ensures front { result ≡ begins word.now bytes.now }
{
    bytes.starts_with(word)
}

/// Whether the bytes are a word that the end of the file cuts off.
pub fn is_cut_word(word: &[u8], bytes: &[u8]) -> bool
    ensures front { result ≡ is_cut_word word.now bytes.now }
{
    word.starts_with(bytes)
}

/// The bytes behind the first n.
pub fn behind(n: usize, bytes: &[u8]) -> &[u8]
    ensures rest { result.now ≡ drop n bytes.now }
{
    match bytes.get(n..) {
        Some(rest) => rest,
        None => &bytes[bytes.len()..],
    }
}
