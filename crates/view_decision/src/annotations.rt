// Annotations of actions, and the words in them.
ghost use Rattle.std.specs.Prelude.{◌≡◌};
ghost use Rattle.authority_model.specs.Rules as rules;

use authority_model::Action;
use check_decision::has_word;

/// Whether an annotation has this word among its words.
pub fn annotates(action: &Action, key: &[u8], word: &[u8]) -> bool
    ensures annotates { result ≡ rules.annotates action.now key.now word.now }
{
    match action.annotation(key) {
        Some(text) => has_word(text.bytes(), word),
        None => false,
    }
}
