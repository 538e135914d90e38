// A change of the temporary authorizations that is staged.
ghost use Rattle.std.specs.Prelude.{◌≡◌, ◌<◌, ◌++◌, ◌∷◌, [], IfOk};
ghost use Rattle.authority_model.specs.declared.verdict.GrantRow.{GrantRow as TheRow};
ghost use Rattle.entry_changes.specs.declared.change.GrantChange.TheVariants.{Add};
ghost use Rattle.authority_model.specs.Lists.{Each};
ghost use Rattle.entry_changes.specs.Changes.{after_grants};
ghost use Rattle.key_index.specs.Held.{key_held};
ghost use Rattle.grant_store.specs.Listed.{AreListed, room_at};
ghost use Rattle.grant_store.specs.Store.{IsReadyFor, change_of};

use crate::by_key::{KeyNumbers, claim, put};
use crate::rows::GrantRows;
use authority_model::{Entry, GrantRow, Key, World};
use entry_changes::GrantChange;
use key_index::KeyOf;
use pk_types::NoMemory;
use std::alloc::Global;

/// A change with all that it needs.
#[derive(Drop)]
pub enum Staged {
    /// Nothing.
    Keep,
    /// This temporary authorization is made.
    Add {
        /// The key that its number stands under.
        key: KeyOf<'static>,
        row: GrantRow,
    },
    /// The one with this number ends.
    EndId(u64),
    /// Those of this subject end.
    EndKey(Key),
}

/// Takes room for one that is made, also for its number at its subject, whose key is given back. A refusal
/// leaves the temporary authorizations as they were.
fn make_room(
    alloc: Global,
    rows: &mut GrantRows,
    lists: &mut KeyNumbers,
    row: &GrantRow,
) -> Result<KeyOf<'static>, NoMemory>
    requires listed { AreListed rows.old.items lists.old.entries }
    ensures items { rows.new.items ≡ rows.old.items }
    ensures listed { AreListed rows.new.items lists.new.entries }
    ensures ok { IfOk result (λ key. (0 < rows.new.room) × (0 < room_at lists.new.entries key) × (key_held key ≡ row.now.key)) }
{
    rows.reserve()?;
    claim(alloc, lists, &row.key)?;
    KeyOf::try_own(alloc, &row.key)
}

/// A change with all that it needs, and room for it. A refusal leaves the temporary authorizations as they
/// were.
pub fn prepare(
    alloc: Global,
    rows: &mut GrantRows,
    lists: &mut KeyNumbers,
    change: GrantChange,
) -> Result<Staged, NoMemory>
    requires listed { AreListed rows.old.items lists.old.entries }
    ensures items { rows.new.items ≡ rows.old.items }
    ensures listed { AreListed rows.new.items lists.new.entries }
    ensures change { IfOk result (λ staged. change_of staged ≡ change) }
    ensures ready { IfOk result (IsReadyFor rows.new.room lists.new.entries) }
{
    match change {
        GrantChange::Keep => Ok(Staged::Keep),
        GrantChange::Add(row) => {
            let key = make_room(alloc, rows, lists, &row)?;
            Ok(Staged::Add { key, row })
        }
        GrantChange::EndId(id) => Ok(Staged::EndId(id)),
        GrantChange::EndKey(key) => Ok(Staged::EndKey(key)),
    }
}

/// Puts a temporary authorization at the end, whose number is above all others, and its number at its subject.
fn add(rows: &mut GrantRows, lists: &mut KeyNumbers, key: &KeyOf<'static>, row: GrantRow)
    requires room { 0 < rows.old.room }
    requires place { 0 < room_at lists.old.entries key.now }
    requires key { key_held key.now ≡ row.key }
    requires fresh { Each (λ g. g.id < row.id) rows.old.items }
    requires listed { AreListed rows.old.items lists.old.entries }
    ensures items { rows.new.items ≡ rows.old.items ++ row ∷ [] }
    ensures listed { AreListed rows.new.items lists.new.entries }
{
    put(lists, key, row.id);
    rows.push(row);
}

/// Carries the temporary authorizations on by an entry with a change.
pub fn carry(
    rows: &mut GrantRows,
    lists: &mut KeyNumbers,
    entry: &Entry,
    world: &World,
    staged: Staged,
)
    requires ready { IsReadyFor rows.old.room lists.old.entries staged }
    requires listed { AreListed rows.old.items lists.old.entries }
    requires fresh { (g : TheRow) → change_of staged ≡ Add g → Each (λ r. r.id < g.id) rows.old.items }
    ensures items { rows.new.items ≡ after_grants entry.now world.now (change_of staged) rows.old.items }
    ensures listed { AreListed rows.new.items lists.new.entries }
{
    rows.end(entry, world);
    match staged {
        Staged::Keep => {}
        Staged::Add { key, row } => add(rows, lists, &key, row),
        Staged::EndId(id) => rows.end_id(id),
        Staged::EndKey(key) => rows.end_key(&key),
    }
}
