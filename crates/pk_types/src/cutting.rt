// Bytes cut at a separator, once or at each place where it stands.
ghost use Rattle.std.specs.Prelude.{◌≡◌, ◌≢◌, ◌<◌, ◌≤◌, ℕ, length, map, slice_index, IfSome, IfNone, IfOk};
ghost use Rattle.pk_types.specs.Pieces.{Lacks, IsCut, pieces_of, lines_of};
ghost use Rattle.pk_types.specs.Text as text_of;

use crate::NoMemory;
use std::alloc::Global;

/// Whether a byte is a space, a tab or an LF.
pub fn is_blank(b: u8) -> bool
    ensures blank { result ≡ text_of.is_blank b }
{
    b == b' ' || b == b'\t' || b == b'\n'
}

/// The place of the first separator, or else the length.
fn place(bytes: &[u8], separator: u8) -> usize
    ensures within { result ≤ length bytes.now }
    ensures before { (k : ℕ) → k < result → slice_index bytes.now k ≢ separator }
    ensures found { result < length bytes.now → slice_index bytes.now result ≡ separator }
{
    for (i, byte) in bytes.iter().enumerate() {
        if *byte == separator {
            return i;
        }
    }
    bytes.len()
}

/// What stands before the first separator, and what stands behind it; `None` exactly where there
/// is none.
pub fn cut(bytes: &[u8], separator: u8) -> Option<(&[u8], &[u8])>
    ensures found { IfSome result (λ (before, behind). IsCut separator bytes.now before.now behind.now) }
    ensures none { IfNone result (Lacks separator bytes.now) }
{
    let at = place(bytes, separator);
    if at == bytes.len() {
        return None;
    }
    let (front, _) = bytes.split_at(at);
    let (_, after) = bytes.split_at(at + 1);
    Some((front, after))
}

/// The pieces between the separators, of which there is one more than separators.
///
/// # Errors
/// `NoMemory` alone.
pub fn pieces<'a>(alloc: Global, bytes: &'a [u8], separator: u8) -> Result<Vec<&'a [u8]>, NoMemory>
    ensures pieces { IfOk result (λ pieces. map (λ piece. piece.now) pieces.items ≡ pieces_of separator bytes.now) }
{
    let mut pieces = Vec::new(alloc);
    let mut rest = bytes;
    'cuts: while let Some((piece, after)) = cut(rest, separator) {
        pieces.push(piece)?;
        rest = after;
    }
    pieces.push(rest)?;
    Ok(pieces)
}

/// The lines: each ends with LF, which is no part of it, and the last may end with the bytes.
///
/// # Errors
/// `NoMemory` alone.
pub fn lines<'a>(alloc: Global, bytes: &'a [u8]) -> Result<Vec<&'a [u8]>, NoMemory>
    ensures lines { IfOk result (λ lines. map (λ line. line.now) lines.items ≡ lines_of bytes.now) }
{
    let mut lines = Vec::new(alloc);
    let mut rest = bytes;
    'cuts: while let Some((line, after)) = cut(rest, b'\n') {
        lines.push(line)?;
        rest = after;
    }
    if rest.is_empty() {
        return Ok(lines);
    }
    lines.push(rest)?;
    Ok(lines)
}
