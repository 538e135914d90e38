// The temporary authorizations that nothing ended, by their numbers.
ghost use Rattle.std.specs.Prelude.{◌≡◌, ◌<◌, ◌≤◌, ◌==◌, ◌++◌, ◌∷◌, [], None, Bool, true, not, find, filter, drop, length, slice_get, nat_le, OnOk};
ghost use Rattle.std.specs.Option.{option_copied};
ghost use Rattle.std.specs.Map.{values_of};
ghost use Rattle.authority_model.specs.declared.verdict.GrantRow.{GrantRow as TheRow};
ghost use Rattle.authority_model.specs.Lists.{Each};
ghost use Rattle.authority_model.specs.Keys.{key_seen, same_key};
ghost use Rattle.authority_model.specs.Deciding.{is_live_at, serves};
ghost use Rattle.entry_changes.specs.Changes.{unlisted, grant_named};
ghost use Rattle.grant_store.specs.Listed.{LeadTo, rows_under};
ghost use Rattle.grant_store.specs.Rows.{AreInTurn, HasExpiredBefore};

use authority_model::{Entry, GrantRow, Key, KeyRef, World};
use indexmap::IndexMap;
use indexmap::map::Slice;
use key_index::{is_load, is_unlisted};
use pk_types::{NoMemory, Text};
use std::alloc::Global;
use std::marker::Model;

/// The temporary authorizations by rising number, each under its number.
///
/// Each is made for the same time, so those that have not expired stand at the end.
#[derive(Drop)]
pub struct GrantRows {
    rows: IndexMap<u64, GrantRow>,
    /// Whether they are known to expire in their order.
    in_turn: bool,
}

impl Model for GrantRows {
    ghost use Rattle.std.specs.Prelude.{◌≡◌, ℕ, true};
    ghost use Rattle.std.specs.Map.{values_of};
    ghost use Rattle.indexmap.specs.IndexMap.{spare};
    ghost use Rattle.key_index.specs.Keyed.{AreKeyed};
    ghost use Rattle.authority_model.specs.declared.verdict.GrantRow.{GrantRow as TheRow};
    ghost use Rattle.grant_store.specs.Rows.{Rows, AreInTurn};

    ghost Value = { Rows };

    ghost view = { λ a. record { items = values_of a.rows.entries; room = spare a.rows } };

    ghost invariant = { λ a. AreKeyed (λ (id : ℕ). id) (λ (x : TheRow). x.id) a.rows.entries × (a.in_turn ≡ true → AreInTurn (values_of a.rows.entries)) };
}

/// The first among these that is for a key and an action, and has not expired at a moment.
fn serving_in<'a>(
    rows: Slice<'a, u64, GrantRow>,
    key: KeyRef,
    action: &Text,
    moment: u64,
) -> Option<&'a GrantRow>
    ensures row { option_copied result ≡ find (serves (key_seen key.entry) action.now moment) (values_of rows.entry) }
{
    rows.values().find(|row| row.serves(key, action, moment))
}

impl GrantRows {
    /// No temporary authorizations. It takes no memory.
    pub fn new(alloc: Global) -> GrantRows
        ensures empty { result.items ≡ [] }
    {
        GrantRows {
            rows: IndexMap::new(alloc),
            in_turn: true,
        }
    }

    /// How many there are.
    pub fn len(&self) -> usize
        ensures length { result ≡ length self.now.items }
    {
        self.rows.len()
    }

    /// The one at a place in their order.
    pub fn nth(&self, i: usize) -> Option<&GrantRow>
        ensures row { option_copied result ≡ slice_get self.now.items i }
    {
        let (_id, row) = self.rows.get_index(i)?;
        Some(row)
    }

    /// The one with this number.
    pub fn of_id(&self, id: u64) -> Option<&GrantRow>
        ensures row { option_copied result ≡ find (λ g. g.id == id) self.now.items }
    {
        self.rows.get(&id)
    }

    /// The one that a text names.
    pub fn of_text(&self, text: &Text) -> Option<&GrantRow>
        ensures row { option_copied result ≡ grant_named text.now self.now.items }
    {
        self.rows.values().find(|row| row.is_named(text))
    }

    /// How many have not expired at a moment.
    pub fn live_count(&self, moment: u64) -> usize
        ensures count { result ≡ length (filter (is_live_at moment) self.now.items) }
    {
        self.rows
            .values()
            .filter(|row| row.is_live_at(moment))
            .count()
    }

    /// A place before which all have expired at a moment. It is found without looking at each of them.
    fn first_live(&self, moment: u64) -> usize
        ensures within { result ≤ length self.now.items }
        ensures rest { HasExpiredBefore moment self.now.items result }
    {
        if self.in_turn {
            self.rows.partition_point(
                |_id, row| -> bool
                    ensures { result ≡ nat_le row.now.expires moment }
                { row.expires <= moment },
            )
        } else {
            0
        }
    }

    /// The first from a place on that is for a key and an action, and has not expired at a moment.
    fn serving_from(
        &self,
        first: usize,
        key: KeyRef,
        action: &Text,
        moment: u64,
    ) -> Option<&GrantRow>
        requires within { first ≤ length self.now.items }
        ensures row { option_copied result ≡ find (serves (key_seen key.entry) action.now moment) (drop first self.now.items) }
    {
        match self.rows.get_range(first..) {
            Some(rows) => serving_in(rows, key, action, moment),
            None => unreachable!(),
        }
    }

    /// The one with a number, if it is for a key and an action and has not expired at a moment.
    fn serving_at(&self, number: u64, key: KeyRef, action: &Text, moment: u64) -> Option<&GrantRow>
        ensures row { option_copied result ≡ find (serves (key_seen key.entry) action.now moment) (rows_under self.now.items (number ∷ [])) }
    {
        let row = self.of_id(number)?;
        if row.serves(key, action, moment) {
            Some(row)
        } else {
            None
        }
    }

    /// The first under numbers that is for a key and an action, and has not expired at a moment.
    fn serving_under(
        &self,
        numbers: &[u64],
        key: KeyRef,
        action: &Text,
        moment: u64,
    ) -> Option<&GrantRow>
        ensures row { option_copied result ≡ find (serves (key_seen key.entry) action.now moment) (rows_under self.now.items numbers.now) }
    {
        for number in numbers {
            match self.serving_at(*number, key, action, moment) {
                Some(row) => return Some(row),
                None => {}
            }
        }
        None
    }

    /// The first that is for a key and an action, and has not expired at a moment. It looks at those under
    /// the numbers, which lead to those of the key, or at those that have not expired, whichever are fewer.
    pub fn serving(
        &self,
        numbers: &[u64],
        key: KeyRef,
        action: &Text,
        moment: u64,
    ) -> Option<&GrantRow>
        requires numbers { LeadTo self.now.items (key_seen key) numbers.now }
        ensures row { option_copied result ≡ find (serves (key_seen key.entry) action.now moment) self.now.items }
    {
        let first = self.first_live(moment);
        let live = self.len() - first;
        let few = numbers.len();
        if live <= few {
            self.serving_from(first, key, action, moment)
        } else {
            self.serving_under(numbers, key, action, moment)
        }
    }

    /// Takes room for one more. A refusal leaves them as they were.
    ///
    /// # Errors
    /// `NoMemory` alone.
    pub fn reserve(&mut self) -> Result<(), NoMemory>
        ensures items { self.new.items ≡ self.old.items }
        ensures ok { OnOk result (0 < self.new.room) }
    {
        self.rows.reserve(1)?;
        Ok(())
    }

    /// Whether they are known to expire in their order with one more at the end.
    fn stays_in_turn(&self, row: &GrantRow) -> bool
        ensures turn { result ≡ true → AreInTurn (self.now.items ++ row.now ∷ []) }
    {
        self.in_turn
            && match self.rows.last() {
                Some((_id, last)) => last.expires <= row.expires,
                None => true,
            }
    }

    /// Puts one at the end, whose number is above all others.
    pub fn push(&mut self, row: GrantRow)
        requires room { 0 < self.old.room }
        requires fresh { Each (λ g. g.id < row.id) self.old.items }
        ensures items { self.new.items ≡ self.old.items ++ row ∷ [] }
    {
        let id = row.id;
        self.in_turn = self.stays_in_turn(&row);
        match self.rows.insert(id, row) {
            Ok(_) => {}
            Err(_) => unreachable!(),
        }
    }

    /// Takes out what an entry ends as a load.
    pub fn end(&mut self, entry: &Entry, world: &World)
        ensures items { self.new.items ≡ filter (λ g. not (unlisted entry.now world.now g.key)) self.old.items }
        ensures room { self.old.room ≤ self.new.room }
    {
        if !is_load(&entry.event) {
            return;
        }
        self.rows.retain(
            |_id, row| -> bool
                ensures { (result ≡ not (unlisted entry.entry.now world.entry.now row.old.key)) × (row.new ≡ row.old) }
            { !is_unlisted(entry, world, &row.key) },
        );
    }

    /// Takes the one with a number out.
    pub fn end_id(&mut self, id: u64)
        ensures items { self.new.items ≡ filter (λ g. not (g.id == id)) self.old.items }
    {
        self.rows.retain(
            |_id, row| -> bool
                ensures { (result ≡ not (row.old.id == id)) × (row.new ≡ row.old) }
            { row.id != id },
        );
    }

    /// Takes all of a key out.
    pub fn end_key(&mut self, key: &Key)
        ensures items { self.new.items ≡ filter (λ g. not (same_key g.key key.now)) self.old.items }
    {
        self.rows.retain(
            |_id, row| -> bool
                ensures { (result ≡ not (same_key row.old.key key.entry.now)) × (row.new ≡ row.old) }
            { !row.key.is_same(key.borrowed()) },
        );
    }
}
