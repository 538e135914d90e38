// The walk over pattern and text: each star stays where the rest, up to the next star, first fits.
ghost use Rattle.std.specs.Prelude.{◌≡◌, ◌≢◌, ◌↔◌, ◌<◌, ◌≤◌, ◌∷◌, ℕ, IsTrue, List, length};
ghost use Rattle.std.specs.Str.{chars};
ghost use Rattle.glob_match.specs.Glob.{Glob, glob, some_suffix};
ghost use Rattle.glob_match.specs.Fits.{FitIs, FirstFitIs, Fitted, ShorterPattern};

use crate::scalar::next_scalar;
use pk_types::Text;

/// `*`, which stands for any run of scalars.
const STAR: u32 = 42;

/// `?`, which stands for one scalar.
const ANY: u32 = 63;

/// What a pattern came to, laid against a text up to its next star.
#[derive(Clone, Copy)]
pub enum Outcome<'a> {
    /// Pattern and text came to their ends together.
    Whole,
    /// A star was reached: the pattern behind it, and the text that is left for it and them.
    Star { pattern: &'a [u8], text: &'a [u8] },
    /// They differ before the next star.
    Differs,
}

/// Whether a byte is a scalar by itself, and not `*`.
fn is_plain(byte: u8) -> bool
    ensures { IsTrue result → (byte < 128) × (byte ≢ 42) }
{
    byte < 128 && u32::from(byte) != STAR
}

/// What is left of a pattern and of a text behind the plain bytes that both begin with.
fn behind_alike<'a>(pattern: &'a [u8], text: &'a [u8]) -> (&'a [u8], &'a [u8])
    ensures fitted { let (behind, rest) = result in
        Fitted (chars pattern.now) (chars text.now) (chars behind.now) (chars rest.now) }
    ensures shorter { let (behind, rest) = result in length behind.now ≤ length pattern.now }
{
    let mut alike = 0;
    while alike < pattern.len() && alike < text.len() {
        if pattern[alike] != text[alike] || !is_plain(pattern[alike]) {
            break;
        }
        alike += 1;
    }
    (&pattern[alike..], &text[alike..])
}

/// Lays a pattern against the front of a text, up to its next star.
fn fit<'a>(pattern: &'a [u8], text: &'a [u8]) -> Outcome<'a>
    ensures fit { FitIs (chars pattern.now) (chars text.now) result }
    ensures shorter { ShorterPattern pattern.now result }
{
    let (mut pattern_left, mut text_left) = behind_alike(pattern, text);
    while let Some((wanted, behind)) = next_scalar(pattern_left) {
        if wanted == STAR {
            return Outcome::Star {
                pattern: behind,
                text: text_left,
            };
        }
        let Some((scalar, rest)) = next_scalar(text_left) else {
            return Outcome::Differs;
        };
        if wanted != ANY && wanted != scalar {
            return Outcome::Differs;
        }
        pattern_left = behind;
        text_left = rest;
    }
    match next_scalar(text_left) {
        None => Outcome::Whole,
        Some(_) => Outcome::Differs,
    }
}

/// The first suffix of a text that a pattern which begins with this scalar may fit: all before it begin
/// with another one.
fn behind_others(wanted: u32, text: &[u8]) -> &[u8]
    ensures same { (pattern : List ℕ) → some_suffix (glob (wanted ∷ pattern)) (chars text.now)
        ≡ some_suffix (glob (wanted ∷ pattern)) (chars result.now) }
    ensures shorter { length result.now ≤ length text.now }
{
    let mut from = text;
    if wanted == STAR || wanted == ANY {
        return from;
    }
    while let Some((scalar, later)) = next_scalar(from) {
        if scalar == wanted {
            break;
        }
        from = later;
    }
    from
}

/// Lays the pattern behind a star against each suffix of the text, until it first fits. Behind a star that
/// ends the pattern this is the last one.
fn first_fit<'a>(pattern: &'a [u8], text: &'a [u8]) -> Outcome<'a>
    ensures fit { FirstFitIs (chars pattern.now) (chars text.now) result }
    ensures shorter { ShorterPattern pattern.now result }
{
    let Some((wanted, _)) = next_scalar(pattern) else {
        return Outcome::Whole;
    };
    let mut from = behind_others(wanted, text);
    loop {
        let found = fit(pattern, from);
        let Outcome::Differs = found else {
            return found;
        };
        let Some((_, later)) = next_scalar(from) else {
            return found;
        };
        from = behind_others(wanted, later);
    }
}

/// Whether the text is in the glob: `*` stands for any run of Unicode scalars, `?` for one, and
/// every other scalar for itself. It takes no memory.
///
/// Globs are those of `Identity` and `Action` in pklocalauthority(8).
pub fn matches(pattern: &Text, text: &Text) -> bool
    ensures glob { IsTrue result ↔ Glob (chars pattern.now) (chars text.now) }
    ensures test { result ≡ glob (chars pattern.now) (chars text.now) }
{
    let mut found = fit(pattern.bytes(), text.bytes());
    while let Outcome::Star { pattern, text } = found {
        found = first_fit(pattern, text);
    }
    matches!(found, Outcome::Whole)
}
