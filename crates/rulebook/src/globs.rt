// The places of the rules with each exact identity glob.
ghost use Rattle.std.specs.Prelude.{◌≡◌, ◌&&◌, Some, IfOk, OnOk, bytes_eq, cond, not, [], ◌∷◌};
ghost use Rattle.std.specs.List.{list_any};
ghost use Rattle.authority_model.specs.Words.{Bytes};
ghost use Rattle.pk_types.specs.Text.{IsText};
ghost use Rattle.rulebook.specs.Indexes.{is_wild, is_exact, ends_with, add_place, add_where, at_text, listed};

use crate::texts::{TextKey, key_of};
use indexmap::IndexMap;
use pk_types::{List, NoMemory, Text};
use std::alloc::Global;

/// Places among the rules, rising.
pub type Places = List<u32>;

/// The places of the rules with each exact identity glob.
pub type GlobPlaces = IndexMap<TextKey, Places>;

/// `*`, which stands for any run of scalars.
const STAR: u8 = 42;

/// `?`, which stands for one scalar.
const ANY: u8 = 63;

/// Whether a byte stands for others in a glob.
fn is_wild(byte: u8) -> bool
    ensures wild { result ≡ is_wild byte }
{
    byte == STAR || byte == ANY
}

/// Whether one of these bytes stands for others in a glob.
fn has_wild(bytes: &[u8]) -> bool
    ensures wild { result ≡ list_any is_wild bytes.now }
{
    bytes.iter().any(|byte| is_wild(*byte))
}

/// Whether a glob has neither `*` nor `?`.
pub fn is_exact(glob: &Text) -> bool
    ensures exact { result ≡ is_exact glob.now }
    ensures text { IsText glob.now }
{
    !has_wild(glob.bytes())
}

/// Whether the last of these places is this one.
fn ends_with(places: &[u32], place: u32) -> bool
    ensures ends { result ≡ ends_with places.now place }
{
    match places.last() {
        Some(last) => *last == place,
        None => false,
    }
}

/// Puts a place last, unless it is there.
pub fn add_place(places: &mut Places, place: u32) -> Result<(), NoMemory>
    ensures added { OnOk result (places.new ≡ add_place places.old place) }
{
    if ends_with(places.as_slice(), place) {
        return Ok(());
    }
    places.try_push(place)
}

/// The places of the rules with this exact identity glob.
pub fn listed<'a>(exact: &'a GlobPlaces, glob: &Text) -> &'a [u32]
    ensures listed { result.now ≡ listed exact.now.entries glob.now }
    ensures text { IsText glob.now }
{
    match exact.get(glob.bytes()) {
        Some(places) => places.as_slice(),
        None => &[],
    }
}

/// The list of one place.
fn one_place(alloc: Global, place: u32) -> Result<Places, NoMemory>
    ensures one { IfOk result (λ places. places ≡ place ∷ []) }
{
    let mut places = List::new(alloc);
    places.try_push(place)?;
    Ok(places)
}

/// Gives a glob that has no list yet the list of this one place.
fn put_new(alloc: Global, exact: &mut GlobPlaces, glob: &Text, place: u32) -> Result<(), NoMemory>
    ensures put { OnOk result ((q : Bytes) → at_text exact.new.entries q
        ≡ cond (bytes_eq glob.now q) (Some (place ∷ [])) (at_text exact.old.entries q)) }
{
    let key = key_of(alloc, glob)?;
    let places = one_place(alloc, place)?;
    exact.insert(key, places)?;
    Ok(())
}

/// Puts a place last in the list of a glob, unless it is there.
fn put_place(alloc: Global, exact: &mut GlobPlaces, glob: &Text, place: u32) -> Result<(), NoMemory>
    ensures put { OnOk result ((q : Bytes) → listed exact.new.entries q
        ≡ add_where (bytes_eq glob.now q) (listed exact.old.entries q) place) }
{
    match exact.get_index_of(glob.bytes()) {
        Some(at) => {
            let (_key, places) = exact.pair_mut(at);
            add_place(places, place)
        }
        None => put_new(alloc, exact, glob, place),
    }
}

/// Lists a rule under one of its identity globs: under the glob itself where it is exact, and else
/// among the rules with a pattern.
pub fn put_identity(
    alloc: Global,
    exact: &mut GlobPlaces,
    patterns: &mut Places,
    glob: &Text,
    place: u32,
) -> Result<(), NoMemory>
    ensures exact { OnOk result ((q : Bytes) → listed exact.new.entries q
        ≡ add_where (is_exact glob.now && bytes_eq glob.now q) (listed exact.old.entries q) place) }
    ensures patterns { OnOk result (patterns.new ≡ add_where (not (is_exact glob.now)) patterns.old place) }
    ensures text { IsText glob.now }
{
    if is_exact(glob) {
        put_place(alloc, exact, glob, place)
    } else {
        add_place(patterns, place)
    }
}
