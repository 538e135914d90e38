// The words of a line, each read by itself.
ghost use Rattle.std.specs.Prelude.{◌≡◌, ◌≤◌, [], ◌∷◌, map, IfOk};
ghost use Rattle.scenario_text.specs.Faults.{Gives};
ghost use Rattle.scenario_text.specs.Words.{number_in, number_32_in, number_64_in, positive_in, caller_in, serial_in, implicit_in, optional_implicit_in, some_value_in, text_in, id_in, local_in, active_in, session_in, each_in, texts_in, gids_in};

use crate::fault::LineKind;
use authority_model::GidList;
use pk_types::{ActionId, Implicit, List, MAX_NUMBER, Text, TextList, number_up_to, pieces};
use std::alloc::Global;

/// The greatest number of a connection in a scenario.
const MAX_CALLER: u32 = 1048575;

/// A number up to the greatest.
pub fn number_word(word: &[u8], greatest: u64) -> Result<u64, LineKind>
    ensures value { Gives result (number_in greatest word.now) }
    ensures bound { IfOk result (λ n. n ≤ greatest) }
{
    match number_up_to(word, greatest) {
        Some(n) => Ok(n),
        None => Err(LineKind::Number),
    }
}

/// A number of 32 bits, as a pid or a uid.
#[tactic(auto, unfolding(crate::specs::Words::number_32_in))]
pub fn number_32(word: &[u8]) -> Result<u32, LineKind>
    ensures value { Gives result (number_32_in word.now) }
{
    let n = number_word(word, u64::from(MAX_NUMBER))?;
    Ok(n as u32)
}

/// A number of 64 bits, as a start time.
#[tactic(auto, unfolding(crate::specs::Words::number_64_in))]
pub fn number_64(word: &[u8]) -> Result<u64, LineKind>
    ensures value { Gives result (number_64_in word.now) }
{
    number_word(word, u64::MAX)
}

/// A number from 1 up to the greatest.
fn positive_word(word: &[u8], greatest: u32) -> Result<u32, LineKind>
    ensures value { Gives result (positive_in greatest word.now) }
{
    let n = number_word(word, u64::from(greatest))?;
    if n == 0 {
        return Err(LineKind::Number);
    }
    Ok(n as u32)
}

/// The number of a connection.
#[tactic(auto, unfolding(crate::specs::Words::caller_in))]
pub fn caller_word(word: &[u8]) -> Result<u32, LineKind>
    ensures value { Gives result (caller_in word.now) }
{
    positive_word(word, MAX_CALLER)
}

/// The serial of a message.
#[tactic(auto, unfolding(crate::specs::Words::serial_in))]
pub fn serial_word(word: &[u8]) -> Result<u32, LineKind>
    ensures value { Gives result (serial_in word.now) }
{
    positive_word(word, MAX_NUMBER)
}

/// An implicit value.
#[tactic(auto, unfolding(crate::specs::Words::implicit_in))]
pub fn implicit_word(word: &[u8]) -> Result<Implicit, LineKind>
    ensures value { Gives result (implicit_in word.now) }
{
    match Implicit::read(word) {
        Some(value) => Ok(value),
        None => Err(LineKind::Value),
    }
}

/// An implicit value that is optional: `-` for none.
#[tactic(auto, unfolding(crate::specs::Words::optional_implicit_in))]
pub fn optional_implicit_word(word: &[u8]) -> Result<Option<Implicit>, LineKind>
    ensures value { Gives result (optional_implicit_in word.now) }
{
    if word == b"-".as_slice() {
        return Ok(None);
    }
    let value = implicit_word(word)?;
    Ok(Some(value))
}

/// Whether one of three words stands for a value: they may not all be `-`.
#[tactic(auto, unfolding(crate::specs::Words::some_value_in))]
pub fn some_value_word(any: &[u8], inactive: &[u8], active: &[u8]) -> Result<bool, LineKind>
    ensures value { Gives result (some_value_in any.now inactive.now active.now) }
{
    let none = b"-".as_slice();
    if any == none && inactive == none && active == none {
        Err(LineKind::Value)
    } else {
        Ok(true)
    }
}

/// A text that isn't empty.
#[tactic(auto, unfolding(crate::specs::Words::text_in))]
pub fn text_word(alloc: Global, word: &[u8]) -> Result<Text, LineKind>
    ensures value { Gives result (text_in word.now) }
{
    if word.is_empty() {
        return Err(LineKind::Value);
    }
    Ok(Text::try_from_bytes(alloc, word)?)
}

/// An action id.
#[tactic(auto, unfolding(crate::specs::Words::id_in))]
pub fn id_word(alloc: Global, word: &[u8]) -> Result<ActionId, LineKind>
    ensures value { Gives result (id_in word.now) }
{
    let text = Text::try_from_bytes(alloc, word)?;
    Ok(ActionId::read(&text)?)
}

/// `local` or `remote`.
#[tactic(auto, unfolding(crate::specs::Words::local_in))]
pub fn local_word(word: &[u8]) -> Result<bool, LineKind>
    ensures value { Gives result (local_in word.now) }
{
    if word == b"local".as_slice() {
        Ok(true)
    } else if word == b"remote".as_slice() {
        Ok(false)
    } else {
        Err(LineKind::Value)
    }
}

/// `active` or `idle`.
#[tactic(auto, unfolding(crate::specs::Words::active_in))]
pub fn active_word(word: &[u8]) -> Result<bool, LineKind>
    ensures value { Gives result (active_in word.now) }
{
    if word == b"active".as_slice() {
        Ok(true)
    } else if word == b"idle".as_slice() {
        Ok(false)
    } else {
        Err(LineKind::Value)
    }
}

/// The session of a process: its id, or `-` for none.
#[tactic(auto, unfolding(crate::specs::Words::session_in))]
pub fn session_word(alloc: Global, word: &[u8]) -> Result<Option<Text>, LineKind>
    ensures value { Gives result (session_in word.now) }
{
    if word == b"-".as_slice() {
        return Ok(None);
    }
    let id = text_word(alloc, word)?;
    Ok(Some(id))
}

fn texts(alloc: Global, items: &[&[u8]]) -> Result<TextList, LineKind>
    ensures value { Gives result (each_in text_in (map (λ item. item.now) items.now)) }
{
    let mut texts = List::new(alloc);
    for item in items {
        let text = text_word(alloc, item)?;
        texts.try_push(text)?;
    }
    Ok(texts)
}

/// Texts with `;` between them.
#[tactic(auto, unfolding(crate::specs::Words::texts_in))]
pub fn texts_word(alloc: Global, word: &[u8]) -> Result<TextList, LineKind>
    ensures value { Gives result (texts_in word.now) }
{
    let items = pieces(alloc, word, b';')?;
    texts(alloc, &items)
}

fn gids(alloc: Global, items: &[&[u8]]) -> Result<GidList, LineKind>
    ensures value { Gives result (each_in number_32_in (map (λ item. item.now) items.now)) }
{
    let mut gids = List::new(alloc);
    for item in items {
        let gid = number_32(item)?;
        gids.try_push(gid)?;
    }
    Ok(gids)
}

/// Gids with commas between them, or `-` for none.
#[tactic(auto, unfolding(crate::specs::Words::gids_in))]
pub fn gids_word(alloc: Global, word: &[u8]) -> Result<GidList, LineKind>
    ensures value { Gives result (gids_in word.now) }
{
    if word == b"-".as_slice() {
        return Ok(List::new(alloc));
    }
    let items = pieces(alloc, word, b',')?;
    gids(alloc, &items)
}
