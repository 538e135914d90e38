// Where the outputs to each connection stand in the journal.
ghost use Rattle.std.specs.Prelude.{◌≡◌, ◌≤◌, ◌<◌, ◌+◌, ◌^◌, ◌==◌, if◌then◌else◌, ◌∷◌, ◌++◌, [], ℕ, List as TheList, IfOk, IsSome, OnOk, Some, length, nat_eq, option_map, slice_get};
ghost use Rattle.std.specs.Map.{lookup};
ghost use Rattle.authority_model.specs.Items.{count_to};
ghost use Rattle.peer_book.specs.Places.{CanTake, KeepsPlaces, ShowsPlaces, TalliesOne, count_in, pair_of, place_at, places_in, places_to, room_in, tally_in};

use authority_model::Output;
use indexmap::IndexMap;
use pk_types::{MAX_NUMBER, NoMemory, Reserved};
use std::alloc::Global;

/// Where an output stands.
#[derive(Clone, Copy, Debug, PartialEq, Eq)]
pub struct OutputPlace {
    /// The place of its entry in the journal, counted from 0.
    pub entry: u64,
    /// Its place among the entry's outputs, counted from 0.
    pub output: u32,
}

/// The places of the outputs to each connection, in the order of the journal. A connection that was
/// sent none may have a row too, which room was taken for.
pub type PlaceRows = IndexMap<u32, Reserved<OutputPlace>>;

/// How many outputs go to each connection.
type Tally = IndexMap<u32, u32>;

/// How many outputs went to a connection.
pub fn count(rows: &PlaceRows, caller: u32) -> usize
    ensures count { result ≡ length (places_in rows.now.entries caller) }
    ensures shown { ShowsPlaces rows.now.entries }
{
    // `len` is called for its clause that no key stands twice.
    let _len = rows.len();
    match rows.get(&caller) {
        Some(row) => row.len(),
        None => 0,
    }
}

/// The two numbers of the place in a row with this number, counted from 0.
fn nth(row: &Reserved<OutputPlace>, i: usize) -> Option<(u64, u32)>
    ensures place { result ≡ option_map pair_of (slice_get row.now.items i) }
{
    let place = row.as_slice().get(i)?;
    Some((place.entry, place.output))
}

/// Where the output to a connection stands that has this number among those that it was sent,
/// counted from 1: the two numbers of its place. `None` for the number 0, and where fewer were sent.
pub fn place(rows: &PlaceRows, caller: u32, number: u32) -> Option<(u64, u32)>
    ensures place { result ≡ option_map pair_of (place_at (places_in rows.now.entries caller) number) }
    ensures shown { ShowsPlaces rows.now.entries }
{
    // As in `count`.
    let _len = rows.len();
    if number == 0 {
        return None;
    }
    match rows.get(&caller) {
        Some(row) => nth(row, (number - 1) as usize),
        None => None,
    }
}

/// Counts one more output to a connection.
fn tally_one(tally: &mut Tally, receiver: u32) -> Result<(), NoMemory>
    ensures counted { OnOk result (TalliesOne receiver tally.old.entries tally.new.entries) }
{
    let count = tally.get(&receiver).copied().unwrap_or(0);
    match count.checked_add(1) {
        Some(more) => {
            tally.insert(receiver, more)?;
            Ok(())
        }
        None => Err(NoMemory),
    }
}

/// How many of the outputs to these receivers go to each connection.
fn tally_all(alloc: Global, receivers: &[u32]) -> Result<Tally, NoMemory>
    ensures counted { IfOk result (λ tally. (c : ℕ) → tally_in tally.entries c ≡ count_in c receivers.now) }
{
    let mut tally = IndexMap::new(alloc);
    for receiver in receivers {
        tally_one(&mut tally, *receiver)?;
    }
    Ok(tally)
}

/// Sees that a connection has a row.
fn add_row(alloc: Global, rows: &mut PlaceRows, receiver: u32) -> Result<(), NoMemory>
    ensures kept { KeepsPlaces rows.old.entries rows.new.entries }
    ensures ok { OnOk result (IsSome (lookup (nat_eq receiver) rows.new.entries)) }
{
    if !rows.contains_key(&receiver) {
        rows.insert(receiver, Reserved::new(alloc))?;
    }
    Ok(())
}

/// Takes room for so many more places of a row. It is refused too where 32 bits would not count them.
fn take_room(row: &mut Reserved<OutputPlace>, more: u32) -> Result<(), NoMemory>
    ensures items { row.new.items ≡ row.old.items }
    ensures room { row.old.room ≤ row.new.room }
    ensures ok { OnOk result (more ≤ row.new.room) }
    ensures few { OnOk result (length row.new.items + more < 2 ^ 32) }
{
    let Some(total) = row.len().checked_add(more as usize) else {
        return Err(NoMemory);
    };
    if total > MAX_NUMBER as usize {
        return Err(NoMemory);
    }
    if row.room() < more as usize {
        return row.try_reserve(more as usize);
    }
    Ok(())
}

/// Takes room for so many more places of a connection that has a row.
fn widen_row(rows: &mut PlaceRows, receiver: u32, more: u32) -> Result<(), NoMemory>
    requires row { IsSome (lookup (nat_eq receiver) rows.old.entries) }
    ensures kept { KeepsPlaces rows.old.entries rows.new.entries }
    ensures ok { OnOk result (CanTake rows.new.entries receiver more) }
{
    match rows.get_mut(&receiver) {
        Some(row) => take_room(row, more),
        None => unreachable!(),
    }
}

/// Takes room for so many more places of a connection.
fn widen_one(alloc: Global, rows: &mut PlaceRows, receiver: u32, more: u32) -> Result<(), NoMemory>
    ensures kept { KeepsPlaces rows.old.entries rows.new.entries }
    ensures ok { OnOk result (CanTake rows.new.entries receiver more) }
{
    add_row(alloc, rows, receiver)?;
    widen_row(rows, receiver, more)
}

/// Takes room for the places of outputs to each connection, so many as are counted.
fn widen_all(alloc: Global, rows: &mut PlaceRows, tally: &Tally) -> Result<(), NoMemory>
    ensures kept { KeepsPlaces rows.old.entries rows.new.entries }
    ensures ok { OnOk result ((c n : ℕ) → lookup (nat_eq c) tally.now.entries ≡ Some n → CanTake rows.new.entries c n) }
{
    for (receiver, more) in tally.iter() {
        widen_one(alloc, rows, *receiver, *more)?;
    }
    Ok(())
}

/// Takes room for the places of outputs to these receivers. The places stay.
pub fn widen(alloc: Global, rows: &mut PlaceRows, receivers: &[u32]) -> Result<(), NoMemory>
    requires few { (c : ℕ) → length (places_in rows.old.entries c) < 2 ^ 32 }
    ensures kept { KeepsPlaces rows.old.entries rows.new.entries }
    ensures ok { OnOk result ((c : ℕ) → CanTake rows.new.entries c (count_in c receivers.now)) }
{
    // Nearly each entry has one output, which need not be counted.
    if receivers.len() == 1 {
        return widen_one(alloc, rows, receivers[0], 1);
    }
    let tally = tally_all(alloc, receivers)?;
    widen_all(alloc, rows, &tally)
}

/// Puts a place at the end of those of a connection, where there is room. It takes no memory.
fn fill_one(rows: &mut PlaceRows, receiver: u32, place: OutputPlace)
    requires room { 0 < room_in rows.old.entries receiver }
    ensures put { (c : ℕ) → places_in rows.new.entries c ≡ places_in rows.old.entries c ++ (if receiver == c then place ∷ [] else []) }
    ensures room { (c : ℕ) → room_in rows.old.entries c ≤ room_in rows.new.entries c + (if receiver == c then 1 else 0) }
{
    match rows.get_mut(&receiver) {
        Some(row) => row.push_reserved(place),
        None => unreachable!(),
    }
}

/// Puts the places of the outputs of the entry at this place at the end of those of their receivers,
/// where there is room. It takes no memory.
fn fill_all(rows: &mut PlaceRows, entry: u64, outputs: &[Output])
    requires room { (c : ℕ) → count_to c outputs.now ≤ room_in rows.old.entries c }
    requires few { length outputs.now < 2 ^ 32 }
    ensures put { (c : ℕ) → places_in rows.new.entries c ≡ places_in rows.old.entries c ++ places_to c entry 0 outputs.now }
{
    for (i, output) in outputs.iter().enumerate() {
        let place = OutputPlace {
            entry,
            output: i as u32,
        };
        fill_one(rows, output.to, place);
    }
}

/// Puts the places of the outputs of the entry at this place at the end of those of their receivers,
/// where there is room. It takes no memory.
pub fn fill(rows: &mut PlaceRows, entry: u64, outputs: &[Output])
    requires room { (c : ℕ) → count_to c outputs.now ≤ room_in rows.old.entries c }
    requires few { length outputs.now < 2 ^ 32 }
    ensures put { (c : ℕ) → places_in rows.new.entries c ≡ places_in rows.old.entries c ++ places_to c entry 0 outputs.now }
    ensures before { ShowsPlaces rows.old.entries }
    ensures after { ShowsPlaces rows.new.entries }
{
    // As in `count`.
    let _before = rows.len();
    fill_all(rows, entry, outputs);
    let _after = rows.len();
}
