// The index of a policy is made.
ghost use Rattle.std.specs.Prelude.{◌≡◌, [], OnOk, IfOk, bytes_eq, position};
ghost use Rattle.pk_types.specs.Text.{IsText};
ghost use Rattle.authority_model.specs.Words.{Bytes};
ghost use Rattle.authority_model.specs.Lists.{Each};
ghost use Rattle.rulebook.specs.Indexes.{add_where, at_text, listed, names, has_pattern, places_from};

use crate::globs::{GlobPlaces, Places, put_identity};
use crate::texts::{TextPlaces, place_of, put_first};
use authority_model::{Action, RuleEntry};
use indexmap::IndexMap;
use pk_types::NoMemory;
use std::alloc::Global;

/// The first place of each action id.
pub fn first_actions(alloc: Global, actions: &[Action]) -> Result<TextPlaces, NoMemory>
    ensures first { IfOk result (λ places. (id : Bytes)
        → at_text places.entries id ≡ position (λ a. bytes_eq a.id id) actions.now) }
{
    let mut places = IndexMap::new(alloc);
    for i in 0..actions.len() {
        let place = place_of(i)?;
        put_first(alloc, &mut places, actions[i].id.text(), place)?;
    }
    Ok(places)
}

/// Lists a rule under each of its identity globs.
fn put_rule(
    alloc: Global,
    exact: &mut GlobPlaces,
    patterns: &mut Places,
    entry: &RuleEntry,
    place: u32,
) -> Result<(), NoMemory>
    ensures exact { OnOk result ((q : Bytes) → listed exact.new.entries q
        ≡ add_where (names q entry.now) (listed exact.old.entries q) place) }
    ensures patterns { OnOk result (patterns.new ≡ add_where (has_pattern entry.now) patterns.old place) }
    ensures texts { OnOk result (Each IsText entry.now.identities) }
{
    let globs = entry.identities.as_slice();
    for i in 0..globs.len() {
        put_identity(alloc, exact, patterns, &globs[i], place)?;
    }
    Ok(())
}

/// Lists each rule under its identity globs.
pub fn put_rules(
    alloc: Global,
    exact: &mut GlobPlaces,
    patterns: &mut Places,
    entries: &[RuleEntry],
) -> Result<(), NoMemory>
    requires exact { (q : Bytes) → listed exact.old.entries q ≡ [] }
    requires patterns { patterns.old ≡ [] }
    ensures exact { OnOk result ((q : Bytes) → listed exact.new.entries q ≡ places_from 0 (names q) entries.now) }
    ensures patterns { OnOk result (patterns.new ≡ places_from 0 has_pattern entries.now) }
    ensures texts { OnOk result (Each (λ e. Each IsText e.identities) entries.now) }
{
    for i in 0..entries.len() {
        let place = place_of(i)?;
        put_rule(alloc, exact, patterns, &entries[i], place)?;
    }
    Ok(())
}
