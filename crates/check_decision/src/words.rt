// The words of a text, without memory.
ghost use Rattle.std.specs.Prelude.{◌≡◌, [], ◌∷◌, ◌<◌, ◌≤◌, length, not, position, bytes_eq, IfSome, IfNone};
ghost use Rattle.std.specs.List.{position_or_len};
ghost use Rattle.authority_model.specs.Lists.{any_of};
ghost use Rattle.authority_model.specs.Words.{words};
ghost use Rattle.pk_types.specs.Text as text_of;

use pk_types::is_blank;

/// The first byte of a text that is not a blank.
fn first_other(text: &[u8]) -> Option<usize>
    ensures first { result ≡ position (λ b. not (text_of.is_blank b)) text.now }
{
    text.iter().position(|b| !is_blank(*b))
}

/// The first blank of a text.
fn first_blank(text: &[u8]) -> Option<usize>
    ensures first { result ≡ position text_of.is_blank text.now }
{
    text.iter().position(|b| is_blank(*b))
}

/// How many blanks there are at the front of a text.
fn blanks(text: &[u8]) -> usize
    ensures first { result ≡ position_or_len (λ b. not (text_of.is_blank b)) text.now }
    ensures within { result ≤ length text.now }
{
    first_other(text).unwrap_or(text.len())
}

/// How many bytes come before the first blank of a text.
fn front_len(text: &[u8]) -> usize
    ensures first { result ≡ position_or_len text_of.is_blank text.now }
    ensures within { result ≤ length text.now }
{
    first_blank(text).unwrap_or(text.len())
}

/// The first word of a text, and what comes after it.
pub fn next_word(text: &[u8]) -> Option<(&[u8], &[u8])>
    ensures first { IfSome result (λ (word, after). words text.now ≡ word.now ∷ words after.now) }
    ensures shorter { IfSome result (λ (word, after). length after.now < length text.now) }
    ensures none { IfNone result (words text.now ≡ []) }
{
    let (_, rest) = text.split_at(blanks(text));
    if rest.is_empty() {
        return None;
    }
    Some(rest.split_at(front_len(rest)))
}

/// Whether a word is among the words of a text.
pub fn has_word(text: &[u8], word: &[u8]) -> bool
    ensures has { result ≡ any_of (bytes_eq word.now) (words text.now) }
{
    let mut rest = text;
    while let Some((found, after)) = next_word(rest) {
        if word == found {
            return true;
        }
        rest = after;
    }
    false
}
