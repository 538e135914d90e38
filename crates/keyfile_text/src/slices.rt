// Parts of bytes: trimmed, without an end, a line.
ghost use Rattle.std.specs.Prelude.{◌≡◌, ◌+◌, ◌<◌, ◌≤◌, ◌==◌, [], ◌∷◌, length, IfNone, IfSome};
ghost use Rattle.keyfile_text.specs.Bytes.{trim_front, trim_back, trim, IsClean};
ghost use Rattle.keyfile_text.specs.Lines.{raw_lines, without_end};

use pk_types::{cut, is_blank};

fn trim_start(bytes: &[u8]) -> &[u8]
    ensures trimmed { result.now ≡ trim_front bytes.now }
    ensures clean { IsClean bytes.now → IsClean result.now }
    ensures shorter { length result.now ≤ length bytes.now }
{
    let mut rest = bytes;
    while let Some((first, behind)) = rest.split_first() {
        if !is_blank(*first) {
            return rest;
        }
        rest = behind;
    }
    rest
}

fn trim_end(bytes: &[u8]) -> &[u8]
    ensures trimmed { result.now ≡ trim_back bytes.now }
    ensures clean { IsClean bytes.now → IsClean result.now }
    ensures shorter { length result.now ≤ length bytes.now }
{
    let mut rest = bytes;
    while let Some((last, before)) = rest.split_last() {
        if !is_blank(*last) {
            return rest;
        }
        rest = before;
    }
    rest
}

/// The bytes without the spaces, tabs and LFs at both ends.
#[tactic(auto, unfolding(crate::specs::Bytes::trim))]
pub fn trimmed(bytes: &[u8]) -> &[u8]
    ensures trimmed { result.now ≡ trim bytes.now }
    ensures clean { IsClean bytes.now → IsClean result.now }
    ensures shorter { length result.now ≤ length bytes.now }
{
    trim_end(trim_start(bytes))
}

/// A line without its LF and a CR before that.
pub fn line_text(line: &[u8]) -> &[u8]
    ensures text { result.now ≡ without_end line.now }
    ensures clean { IsClean line.now → IsClean result.now }
{
    let Some((b'\n', text)) = line.split_last() else {
        return line;
    };
    match text.split_last() {
        Some((b'\r', before)) => before,
        _ => text,
    }
}

/// The first line with its end, and the bytes behind it.
pub fn next_line(bytes: &[u8]) -> Option<(&[u8], &[u8])>
    ensures end { IfNone result (bytes.now ≡ []) }
    ensures line { IfSome result (λ (line, behind). raw_lines bytes.now ≡ line.now ∷ raw_lines behind.now) }
    ensures whole { IfSome result (λ (line, behind). length line.now + length behind.now ≡ length bytes.now) }
    ensures some { IfSome result (λ (line, behind). 0 < length line.now) }
    ensures clean { IsClean bytes.now → IfSome result (λ (line, behind). IsClean line.now × IsClean behind.now) }
{
    if bytes.is_empty() {
        return None;
    }
    match cut(bytes, b'\n') {
        Some((front, _)) => Some(bytes.split_at(front.len() + 1)),
        None => Some(bytes.split_at(bytes.len())),
    }
}
