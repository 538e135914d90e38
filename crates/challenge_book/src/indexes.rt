// The indexes: from what tells challenges apart to the place of the entry that opened the challenge.
ghost use Rattle.std.specs.Prelude.{◌≡◌, ◌<◌, ℕ, Some, None};
ghost use Rattle.std.specs.Cow.{cow_slice_items};
ghost use Rattle.indexmap.specs.IndexMap.{spare};
ghost use Rattle.challenge_book.specs.Keys.{KeyText, Sets, is_text, is_pair, is_id, is_full_id, entry_of_cookie, entry_at, entry_named};

use crate::filed::TextKey;
use indexmap::IndexMap;
use std::borrow::CowSlice;

/// Entries by the texts of cookies.
pub type CookieIndex = IndexMap<TextKey<'static>, u64>;

/// Entries by an agent's connection and the serial that it was asked with.
pub type AgentIndex = IndexMap<(u32, u32), u64>;

/// Entries by an asker's connection and a cancellation id, which is not empty.
pub type CancelIndex = IndexMap<(u32, TextKey<'static>), u64>;

/// Puts an entry in at the text of a cookie, where there is room.
pub fn put_cookie(index: &mut CookieIndex, cookie: TextKey<'static>, entry: u64)
    requires room { 0 < spare index.old }
    ensures puts { Sets entry_of_cookie (is_text (cow_slice_items cookie.entry)) (Some entry) index.old.entries index.new.entries }
{
    match index.insert(cookie, entry) {
        Ok(_) => {}
        Err(_) => unreachable!(),
    }
}

/// Puts an entry in at an agent and a serial, where there is room.
pub fn put_asked(index: &mut AgentIndex, agent: u32, serial: u32, entry: u64)
    requires room { 0 < spare index.old }
    ensures puts { Sets entry_at (is_pair agent serial) (Some entry) index.old.entries index.new.entries }
{
    match index.insert((agent, serial), entry) {
        Ok(_) => {}
        Err(_) => unreachable!(),
    }
}

/// Puts an entry in at an asker and a cancellation id, where that is not empty and there is room.
pub fn put_named(index: &mut CancelIndex, asker: u32, id: TextKey<'static>, entry: u64)
    requires room { 0 < spare index.old }
    ensures puts { Sets entry_named (is_full_id asker (cow_slice_items id.entry)) (Some entry) index.old.entries index.new.entries }
{
    match id.as_slice() {
        [] => return,
        _ => {}
    }
    match index.insert((asker, id), entry) {
        Ok(_) => {}
        Err(_) => unreachable!(),
    }
}

/// Takes what stands at the text of a cookie out.
pub fn take_cookie(index: &mut CookieIndex, cookie: &[u8])
    ensures takes { Sets entry_of_cookie (is_text cookie.now) None index.old.entries index.new.entries }
{
    match index.get_full(&CowSlice::Borrowed(cookie)) {
        Some((place, _key, _entry)) => {
            index.swap_remove_index(place);
        }
        None => {}
    }
}

/// Takes what stands at an agent and a serial out.
pub fn take_asked(index: &mut AgentIndex, agent: u32, serial: u32)
    ensures takes { Sets entry_at (is_pair agent serial) None index.old.entries index.new.entries }
{
    index.swap_remove(&(agent, serial));
}

/// Takes what stands at an asker and a cancellation id out.
pub fn take_named(index: &mut CancelIndex, asker: u32, id: &[u8])
    ensures takes { Sets entry_named (is_id asker id.now) None index.old.entries index.new.entries }
{
    match index.get_full(&(asker, CowSlice::Borrowed(id))) {
        Some((place, _key, _entry)) => {
            index.swap_remove_index(place);
        }
        None => {}
    }
}

/// The entry at the text of a cookie.
pub fn of_cookie(index: &CookieIndex, cookie: &[u8]) -> Option<u64>
    ensures entry { (k : KeyText) → cow_slice_items k ≡ cookie.now → result ≡ entry_of_cookie index.now.entries k }
{
    index.get(&CowSlice::Borrowed(cookie)).copied()
}

/// The entry at an agent and a serial.
pub fn asked(index: &AgentIndex, agent: u32, serial: u32) -> Option<u64>
    ensures entry { result ≡ entry_at index.now.entries (agent, serial) }
{
    index.get(&(agent, serial)).copied()
}

/// The entry at an asker and a cancellation id.
pub fn named(index: &CancelIndex, asker: u32, id: &[u8]) -> Option<u64>
    ensures entry { (k : ℕ × KeyText) → k.0 ≡ asker → cow_slice_items k.1 ≡ id.now → result ≡ entry_named index.now.entries k }
{
    index.get(&(asker, CowSlice::Borrowed(id))).copied()
}
