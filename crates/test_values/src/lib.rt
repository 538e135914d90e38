//! Values that tests are made of. The calls promise nothing of what they answer: a test compares
//! that when it runs, and has no use for a proof of it.
#![tactic(auto)]

use pk_types::{ActionId, List, NoMemory, Text};
use std::alloc::Global;

/// The text of these characters, and `NoMemory` also where they are no text.
pub fn text(alloc: Global, characters: &str) -> Result<Text, NoMemory> {
    text_of_bytes(alloc, characters.as_bytes())
}

/// The text of these bytes, and `NoMemory` also where they are no text.
pub fn text_of_bytes(alloc: Global, bytes: &[u8]) -> Result<Text, NoMemory> {
    Text::try_from_bytes(alloc, bytes).map_err(|_| NoMemory)
}

/// The id of an action of these characters, and `NoMemory` also where they are none.
pub fn action_id(alloc: Global, characters: &str) -> Result<ActionId, NoMemory> {
    ActionId::read(&text(alloc, characters)?).map_err(|_| NoMemory)
}

/// A list of one item.
pub fn one<T: Drop>(alloc: Global, item: T) -> Result<List<T>, NoMemory> {
    let mut list = List::new(alloc);
    list.try_push(item)?;
    Ok(list)
}
