// The words after the action of a check.
ghost use Rattle.std.specs.Prelude.{[], ◌∷◌, map, codes};
ghost use Rattle.scenario_text.specs.Faults.{Gives};
ghost use Rattle.scenario_text.specs.CallerLines.{cancel_in, options_in};

use crate::fault::LineKind;
use crate::subjects::behind;
use crate::words::text_word;
use authority_model::ALLOW_USER_INTERACTION;
use pk_types::Text;
use std::alloc::Global;

/// The flags and the cancellation id of a check.
#[derive(Drop)]
pub struct CheckOptions {
    pub flags: u32,
    pub cancel: Text,
}

/// `cancel=ID`.
#[tactic(auto, unfolding(crate::specs::CallerLines::cancel_in))]
fn cancel_word(alloc: Global, word: &[u8]) -> Result<Text, LineKind>
    ensures value { Gives result (cancel_in word.now) }
{
    match behind(word, b"cancel=".as_slice()) {
        Some(id) => text_word(alloc, id),
        None => Err(LineKind::Value),
    }
}

fn one(alloc: Global, word: &[u8]) -> Result<CheckOptions, LineKind>
    ensures value { Gives result (options_in (word.now ∷ [])) }
{
    if word == b"ask".as_slice() {
        let cancel = Text::new(alloc);
        return Ok(CheckOptions {
            flags: ALLOW_USER_INTERACTION,
            cancel,
        });
    }
    let cancel = cancel_word(alloc, word)?;
    Ok(CheckOptions { flags: 0, cancel })
}

fn two(alloc: Global, word: &[u8], id: &[u8]) -> Result<CheckOptions, LineKind>
    ensures value { Gives result (options_in (word.now ∷ id.now ∷ [])) }
{
    if word != b"ask".as_slice() {
        return Err(LineKind::Value);
    }
    let cancel = cancel_word(alloc, id)?;
    Ok(CheckOptions {
        flags: ALLOW_USER_INTERACTION,
        cancel,
    })
}

impl CheckOptions {
    /// No word, `ask`, `cancel=ID`, or both in this order.
    pub fn read(alloc: Global, words: &[&[u8]]) -> Result<CheckOptions, LineKind>
        ensures value { Gives result (options_in (map (λ word. word.now) words.now)) }
    {
        match words {
            [] => Ok(CheckOptions {
                flags: 0,
                cancel: Text::new(alloc),
            }),
            [word] => one(alloc, word),
            [word, id] => two(alloc, word, id),
            _ => Err(LineKind::Value),
        }
    }
}
