// The temporary authorizations that nothing ended, and the change of them that is staged.
ghost use Rattle.std.specs.Prelude.{◌≡◌, ◌<◌, ◌==◌, [], None, Some, IsSome, filter, find, length, slice_get, OnOk, OnErr, IfOk};
ghost use Rattle.std.specs.Option.{option_copied, option_map};
ghost use Rattle.authority_model.specs.declared.verdict.GrantRow.{GrantRow as TheRow};
ghost use Rattle.entry_changes.specs.declared.change.GrantChange.{GrantChange as TheChange};
ghost use Rattle.entry_changes.specs.declared.change.GrantChange.TheVariants.{Add};
ghost use Rattle.authority_model.specs.Lists.{Each};
ghost use Rattle.authority_model.specs.Keys.{key_seen};
ghost use Rattle.authority_model.specs.Deciding.{is_live_at, serves};
ghost use Rattle.entry_changes.specs.Changes.{after_grants, grant_named};

use crate::by_key::{KeyNumbers, numbers_of};
use crate::rows::GrantRows;
use crate::staged::{Staged, carry, prepare};
use authority_model::{Entry, GrantRow, KeyRef, World};
use entry_changes::GrantChange;
use indexmap::IndexMap;
use key_index::KeyOf;
use pk_types::{NoMemory, Text};
use std::alloc::Global;
use std::marker::Model;

/// The temporary authorizations that nothing ended, by rising number, and the change of them that is staged.
/// Some of them may have expired (TemporaryAuthorization in the reference manual).
#[derive(Drop)]
pub struct GrantStore {
    alloc: Global,
    rows: GrantRows,
    /// The numbers of each subject, by which they are found.
    by_key: KeyNumbers,
    staged: Option<Staged>,
}

impl Model for GrantStore {
    ghost use Rattle.std.specs.Option.{option_map};
    ghost use Rattle.grant_store.specs.Listed.{AreListed};
    ghost use Rattle.grant_store.specs.Store.{Grants, IsReady, change_of};

    ghost Value = { Grants };

    ghost view = { λ a. record { items = a.rows.items; staged = option_map change_of a.staged } };

    ghost invariant = { λ a. IsReady a.rows.room a.by_key.entries a.staged × AreListed a.rows.items a.by_key.entries };
}

impl GrantStore {
    /// No temporary authorizations. It takes no memory.
    pub fn new(alloc: Global) -> Result<GrantStore, NoMemory>
        ensures items { IfOk result (λ store. store.items ≡ []) }
        ensures none { IfOk result (λ store. store.staged ≡ None) }
    {
        let rows = GrantRows::new(alloc);
        let by_key = IndexMap::new(alloc);
        let store = GrantStore {
            alloc,
            rows,
            by_key,
            staged: None,
        };
        Ok(store)
    }

    /// The number of the least one that is for a subject and an action and has not expired at a moment.
    pub fn live(&self, key: KeyRef, action: &Text, moment: u64) -> Option<u64>
        ensures id { result ≡ option_map (λ g. g.id) (find (serves (key_seen key.entry) action.now moment) self.now.items) }
    {
        let row = self.live_row(key, action, moment)?;
        Some(row.id)
    }

    /// The least one that is for a subject and an action and has not expired at a moment.
    pub fn live_row(&self, key: KeyRef, action: &Text, moment: u64) -> Option<&GrantRow>
        ensures row { option_copied result ≡ find (serves (key_seen key.entry) action.now moment) self.now.items }
    {
        let numbers = numbers_of(&self.by_key, &KeyOf::borrowed(key));
        self.rows.serving(numbers, key, action, moment)
    }

    /// The one with this number.
    pub fn of_id(&self, id: u64) -> Option<&GrantRow>
        ensures row { option_copied result ≡ find (λ g. g.id == id) self.now.items }
    {
        self.rows.of_id(id)
    }

    /// The one that a text names, which is `tmpauthz` and its number; it may have expired.
    pub fn of_text(&self, text: &Text) -> Option<&GrantRow>
        ensures row { option_copied result ≡ grant_named text.now self.now.items }
    {
        self.rows.of_text(text)
    }

    /// How many there are.
    pub fn len(&self) -> usize
        ensures length { result ≡ length self.now.items }
    {
        self.rows.len()
    }

    /// The one at a place by rising number.
    pub fn nth(&self, i: usize) -> Option<&GrantRow>
        ensures row { option_copied result ≡ slice_get self.now.items i }
    {
        self.rows.nth(i)
    }

    /// How many have not expired at a moment.
    pub fn live_count(&self, moment: u64) -> usize
        ensures count { result ≡ length (filter (is_live_at moment) self.now.items) }
    {
        self.rows.live_count(moment)
    }

    /// Takes all memory that an entry with this change needs. Nothing is staged after a refusal, and the
    /// temporary authorizations stay.
    ///
    /// # Errors
    /// `NoMemory` alone.
    pub fn stage(&mut self, _entry: &Entry, change: GrantChange) -> Result<(), NoMemory>
        ensures items { self.new.items ≡ self.old.items }
        ensures ok { OnOk result (self.new.staged ≡ Some change) }
        ensures err { OnErr result (self.new.staged ≡ None) }
    {
        self.unstage();
        let staged = prepare(self.alloc, &mut self.rows, &mut self.by_key, change)?;
        self.staged = Some(staged);
        Ok(())
    }

    /// Drops what is staged. It takes no memory.
    pub fn unstage(&mut self)
        ensures items { self.new.items ≡ self.old.items }
        ensures none { self.new.staged ≡ None }
    {
        if self.staged.is_some() {
            self.staged = None;
        }
    }

    /// Carries the temporary authorizations on by an entry with the change that is staged, in the world that
    /// is in force after the entry. It takes no memory.
    pub fn apply_entry(&mut self, entry: &Entry, world: &World)
        requires staged { IsSome self.old.staged }
        requires fresh { (g : TheRow) → self.old.staged ≡ Some (Add g) → Each (λ r. r.id < g.id) self.old.items }
        ensures items { (change : TheChange) → self.old.staged ≡ Some change → self.new.items ≡ after_grants entry.now world.now change self.old.items }
        ensures none { self.new.staged ≡ None }
    {
        match self.staged.take() {
            Some(staged) => carry(&mut self.rows, &mut self.by_key, entry, world, staged),
            None => unreachable!(),
        }
    }
}
