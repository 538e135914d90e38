// The order of ids by their bytes.
ghost use Rattle.std.specs.Prelude.{◌≡◌};
ghost use Rattle.std.specs.Option.{option_copied};
ghost use Rattle.authority_model.specs.Words as words;
ghost use Rattle.view_decision.specs.Implying as implying;

use pk_types::Text;

/// Whether one text comes before another, by their bytes.
fn comes_before(one: &[u8], other: &[u8]) -> bool
    ensures before { result ≡ words.comes_before one.now other.now }
{
    one < other
}

/// The lesser of a text and the least so far, where there is one.
pub fn lesser<'a>(text: &'a Text, least: Option<&'a Text>) -> &'a Text
    ensures lesser { result.now ≡ implying.lesser text.now (option_copied least.entry) }
{
    match least {
        None => text,
        Some(least) => {
            if comes_before(text.bytes(), least.bytes()) {
                text
            } else {
                least
            }
        }
    }
}
