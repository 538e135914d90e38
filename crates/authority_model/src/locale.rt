// The text that a locale chooses.
ghost use Rattle.std.specs.Prelude.{◌≡◌, ◌==◌, ◌||◌, position};
ghost use Rattle.std.specs.Option.{option_copied};
ghost use Rattle.authority_model.specs.Locales.{language_of, without_territory, in_language, localized_text};

use crate::{Localized, LocalizedList};
use pk_types::Text;

/// Where the encoding or the modifier of a locale begins.
fn suffix_place(locale: &[u8]) -> Option<usize>
    ensures first { result ≡ position (λ b. (b == 46) || (b == 64)) locale.now }
{
    locale.iter().position(|b| *b == b'.' || *b == b'@')
}

/// Where the territory of a language begins.
fn territory_place(language: &[u8]) -> Option<usize>
    ensures first { result ≡ position (λ b. b == 95) language.now }
{
    language.iter().position(|b| *b == b'_')
}

/// A locale without its encoding and its modifier.
fn language(locale: &[u8]) -> &[u8]
    ensures language { result.now ≡ language_of locale.now }
{
    match suffix_place(locale) {
        Some(end) => &locale[..end],
        None => locale,
    }
}

/// A language without its territory.
fn general(language: &[u8]) -> &[u8]
    ensures general { result.now ≡ without_territory language.now }
{
    match territory_place(language) {
        Some(end) => &language[..end],
        None => language,
    }
}

/// The first text in a language.
fn text_in<'a>(texts: &'a [Localized], language: &[u8]) -> Option<&'a Text>
    ensures first { option_copied result ≡ in_language texts.now language.now }
{
    match texts.iter().find(|text| text.lang.bytes() == language) {
        Some(found) => Some(&found.text),
        None => None,
    }
}

/// The text of a list that a locale chooses: the one in its language and territory, or else the one
/// in its language, or else the one without a language. `None` exactly where there is none of them.
///
/// The locale's encoding and modifier, from its first `.` or `@` on, are passed over.
pub fn localized<'a>(list: &'a LocalizedList, locale: &Text) -> Option<&'a Text>
    ensures chosen { option_copied result ≡ localized_text list.now locale.now }
{
    let texts = list.as_slice();
    let language = language(locale.bytes());
    if let Some(text) = text_in(texts, language) {
        return Some(text);
    }
    match text_in(texts, general(language)) {
        Some(text) => Some(text),
        None => text_in(texts, b""),
    }
}
