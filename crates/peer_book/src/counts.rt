// How many of the outputs to a connection another one has collected.
ghost use Rattle.std.specs.Prelude.{◌≡◌, ◌<◌, ◌==◌, ◌&&◌, ◌^◌, ℕ, if◌then◌else◌, length};
ghost use Rattle.indexmap.specs.IndexMap.{spare};
ghost use Rattle.peer_book.specs.Counts.{CarriesCounts, NotesCount, collected_in, collects};
ghost use Rattle.peer_book.specs.Places.{places_in, places_of, shown};

use crate::places::{PlaceRows, count};
use authority_model::{Entry, Event};
use indexmap::IndexMap;

/// For each two connections how many of the outputs to the second the first has collected. Where
/// there is no count, it has collected none.
pub type Counts = IndexMap<(u32, u32), u32>;

/// How many of the outputs to a connection another one has collected.
pub fn collected(counts: &Counts, by: u32, of: u32) -> u32
    ensures count { result ≡ collected_in counts.now.entries by of }
{
    counts.get(&(by, of)).copied().unwrap_or(0)
}

/// The connection whose outputs an event takes.
fn collects(event: &Event) -> Option<u32>
    ensures of { result ≡ collects event.now }
{
    match event {
        Event::Collect { of } => Some(*of),
        _ => None,
    }
}

/// Notes what a connection has collected of another, where there is room.
fn note(counts: &mut Counts, by: u32, of: u32, count: u32)
    requires room { 0 < spare counts.old }
    ensures noted { NotesCount by of count counts.old.entries counts.new.entries }
{
    match counts.insert((by, of), count) {
        Ok(_) => {}
        Err(_) => unreachable!(),
    }
}

/// Carries the counts on by one entry, by the places of the outputs before it. It takes no memory.
pub fn carry_counts(counts: &mut Counts, entry: &Entry, places: &PlaceRows)
    requires room { 0 < spare counts.old }
    requires few { (c : ℕ) → length (places_in places.now.entries c) < 2 ^ 32 }
    ensures carried { CarriesCounts entry.now (λ c. length (places_of (shown places.now.entries) c)) counts.old.entries counts.new.entries }
{
    let Some(of) = collects(&entry.event) else {
        return;
    };
    let sent = count(places, of) as u32;
    note(counts, entry.caller, of, sent);
}
