// Places by a text. A key owns its bytes, and a look-up borrows them.
ghost use Rattle.std.specs.Prelude.{◌≡◌, IfOk, OnOk, bytes_eq};
ghost use Rattle.authority_model.specs.Words.{Bytes};
ghost use Rattle.authority_model.specs.Lists.{or_else, when};
ghost use Rattle.rulebook.specs.Indexes.{at_text};

use indexmap::IndexMap;
use pk_types::{NoMemory, Text};
use std::alloc::Global;

/// A text as a key.
pub type TextKey = Vec<u8, Global>;

/// A place by a text.
pub type TextPlaces = IndexMap<TextKey, u32>;

/// A place in 32 bits. A list that is longer than that is refused as one that has no memory.
pub fn place_of(i: usize) -> Result<u32, NoMemory>
    ensures place { IfOk result (λ place. place ≡ i) }
{
    if i < 4294967296 {
        Ok(i as u32)
    } else {
        Err(NoMemory)
    }
}

/// A copy of a text as a key.
pub fn key_of(alloc: Global, text: &Text) -> Result<TextKey, NoMemory>
    ensures key { IfOk result (λ key. key.items ≡ text.now) }
{
    Ok(text.bytes().to_vec(alloc)?)
}

/// The place of a text.
pub fn text_place(places: &TextPlaces, text: &Text) -> Option<u32>
    ensures place { result ≡ at_text places.now.entries text.now }
{
    places.get(text.bytes()).copied()
}

/// Gives a text a place, unless it has one.
pub fn put_first(
    alloc: Global,
    places: &mut TextPlaces,
    text: &Text,
    place: u32,
) -> Result<(), NoMemory>
    ensures first { OnOk result ((q : Bytes) → at_text places.new.entries q
        ≡ or_else (at_text places.old.entries q) (when (bytes_eq text.now q) place)) }
{
    if text_place(places, text).is_some() {
        return Ok(());
    }
    let key = key_of(alloc, text)?;
    places.insert(key, place)?;
    Ok(())
}
