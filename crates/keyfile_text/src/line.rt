// What a line of a key file says.
ghost use Rattle.std.specs.Prelude.{◌≡◌, IfOk};
ghost use Rattle.keyfile_text.specs.Bytes.{cut_at, IsClean};
ghost use Rattle.keyfile_text.specs.Lines.{is_long, header, header_of, setting_of, setting, line_of};
ghost use Rattle.keyfile_text.specs.Maps.{line_in, SaysTexts};

use crate::escape::are_escapes_whole;
use crate::fault::KeyFaultKind;
use crate::slices::trimmed;
use pk_types::{MAX_TEXT, cut};

/// What a line says that has no fault.
#[derive(Clone, Copy)]
pub enum Said<'a> {
    /// Nothing: it is empty or a comment.
    Blank,
    /// A group of that name begins.
    Header(&'a [u8]),
    /// The key has the value.
    Setting { key: &'a [u8], value: &'a [u8] },
}

fn is_too_long(bytes: &[u8]) -> bool
    ensures long { result ≡ is_long bytes.now }
{
    bytes.len() > MAX_TEXT
}

/// A header, by what stands before its first `]` and behind that.
fn header_parts<'a>(name: &'a [u8], behind: &[u8]) -> Result<Said<'a>, KeyFaultKind>
    ensures says { line_in result ≡ header name.now behind.now }
    ensures texts { IsClean name.now → IfOk result SaysTexts }
{
    if name.is_empty() || name.contains(&b'[') || !behind.is_empty() {
        return Err(KeyFaultKind::BadHeader);
    }
    if is_too_long(name) {
        return Err(KeyFaultKind::TooLong);
    }
    Ok(Said::Header(name))
}

/// What a line says that begins with `[`, by what stands behind that.
fn header_line(line: &[u8]) -> Result<Said<'_>, KeyFaultKind>
    ensures says { line_in result ≡ header_of (cut_at 93 line.now) }
    ensures texts { IsClean line.now → IfOk result SaysTexts }
{
    match cut(line, b']') {
        Some((name, behind)) => header_parts(name, behind),
        None => Err(KeyFaultKind::BadHeader),
    }
}

fn key_and_value<'a>(key: &'a [u8], value: &'a [u8]) -> Result<Said<'a>, KeyFaultKind>
    ensures says { line_in result ≡ setting key.now value.now }
    ensures texts { IsClean key.now → IsClean value.now → IfOk result SaysTexts }
{
    if key.is_empty() {
        return Err(KeyFaultKind::NoEquals);
    }
    if !are_escapes_whole(value) {
        return Err(KeyFaultKind::BadEscape);
    }
    if is_too_long(key) {
        return Err(KeyFaultKind::TooLong);
    }
    if is_too_long(value) {
        return Err(KeyFaultKind::TooLong);
    }
    Ok(Said::Setting { key, value })
}

/// What another line says, in a group.
fn key_line(line: &[u8]) -> Result<Said<'_>, KeyFaultKind>
    ensures says { line_in result ≡ setting_of (cut_at 61 line.now) }
    ensures texts { IsClean line.now → IfOk result SaysTexts }
{
    match cut(line, b'=') {
        Some((key, value)) => key_and_value(trimmed(key), trimmed(value)),
        None => Err(KeyFaultKind::NoEquals),
    }
}

/// What a line without blanks at its ends says, in a group or before the first.
pub fn line_says(in_group: bool, line: &[u8]) -> Result<Said<'_>, KeyFaultKind>
    ensures says { line_in result ≡ line_of in_group line.now }
    ensures texts { IsClean line.now → IfOk result SaysTexts }
{
    let Some((first, behind)) = line.split_first() else {
        return Ok(Said::Blank);
    };
    if *first == b'#' {
        return Ok(Said::Blank);
    }
    if *first == b'[' {
        return header_line(behind);
    }
    if !in_group {
        return Err(KeyFaultKind::NoGroup);
    }
    key_line(line)
}
