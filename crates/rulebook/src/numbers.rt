// Places by a number, and by a pid with its start.
ghost use Rattle.std.specs.Prelude.{◌≡◌, ◌==◌, ◌&&◌, ℕ, OnOk};
ghost use Rattle.authority_model.specs.Lists.{or_else, when};
ghost use Rattle.rulebook.specs.WorldIndexes.{at_number, at_process};

use indexmap::IndexMap;
use pk_types::NoMemory;

/// A place by a number.
pub type NumberPlaces = IndexMap<u32, u32>;

/// A place by a pid and a start.
pub type ProcessPlaces = IndexMap<(u32, u64), u32>;

/// The place of a number.
pub fn number_place(places: &NumberPlaces, number: u32) -> Option<u32>
    ensures place { result ≡ at_number places.now.entries number }
{
    places.get(&number).copied()
}

/// The place of a pid and a start.
pub fn process_place(places: &ProcessPlaces, pid: u32, start: u64) -> Option<u32>
    ensures place { result ≡ at_process places.now.entries pid start }
{
    places.get(&(pid, start)).copied()
}

/// Gives a number a place, unless it has one.
pub fn put_first_number(places: &mut NumberPlaces, number: u32, place: u32) -> Result<(), NoMemory>
    ensures first { OnOk result ((q : ℕ) → at_number places.new.entries q
        ≡ or_else (at_number places.old.entries q) (when (number == q) place)) }
{
    if number_place(places, number).is_some() {
        return Ok(());
    }
    places.insert(number, place)?;
    Ok(())
}

/// Gives a pid and a start a place, unless they have one.
pub fn put_first_process(
    places: &mut ProcessPlaces,
    pid: u32,
    start: u64,
    place: u32,
) -> Result<(), NoMemory>
    ensures first { OnOk result ((p s : ℕ) → at_process places.new.entries p s
        ≡ or_else (at_process places.old.entries p s) (when ((pid == p) && (start == s)) place)) }
{
    if process_place(places, pid, start).is_some() {
        return Ok(());
    }
    places.insert((pid, start), place)?;
    Ok(())
}
