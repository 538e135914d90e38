// The pending challenges in the order of opening, each found by the entry that opened it.
ghost use Rattle.std.specs.Prelude.{◌≡◌, ◌<◌, ◌++◌, ◌∷◌, [], None, find, map, length, slice_get, string_bytes, IfSome, OnOk};
ghost use Rattle.std.specs.Option.{option_copied, option_map};
ghost use Rattle.authority_model.specs.Cookies.{cookie_text};
ghost use Rattle.entry_changes.specs.Changes.{is_of_entry, without, answered_by};
ghost use Rattle.challenge_book.specs.Rows.{row_of};

use crate::filed::Filed;
use authority_model::Pending;
use indexmap::IndexMap;
use pk_types::{Identity, NoMemory};
use slab::Slab;
use std::alloc::Global;
use std::marker::Model;

/// The pending challenges in the order of opening, in a slab whose keys are found by the place of the
/// entry that opened the challenge.
#[derive(Drop)]
pub struct PendingRows {
    rows: Slab<Filed>,
    order: IndexMap<u64, usize>,
}

impl Model for PendingRows {
    ghost use Rattle.std.specs.Prelude.{◌-◌, min};
    ghost use Rattle.slab.specs.Slab.{slab_len};
    ghost use Rattle.indexmap.specs.IndexMap.{spare};
    ghost use Rattle.challenge_book.specs.Rows.{Rows, rows_in, AreRows};

    ghost Value = { Rows };

    ghost view = { λ a. record { items = rows_in a.rows a.order.entries; room = min (a.rows.capacity - slab_len a.rows) (spare a.order) } };

    ghost invariant = { λ a. AreRows a.rows a.order.entries };
}

/// The challenge that is stored, without the text of its cookie.
fn row_in(filed: Option<&Filed>) -> Option<&Pending>
    ensures row { option_copied result ≡ option_map row_of (option_copied filed.entry) }
{
    match filed {
        Some(filed) => Some(&filed.row),
        None => None,
    }
}

impl PendingRows {
    /// No challenges. It takes no memory.
    pub fn new(alloc: Global) -> PendingRows
        ensures empty { result.items ≡ [] }
    {
        PendingRows {
            rows: Slab::new(alloc),
            order: IndexMap::new(alloc),
        }
    }

    /// How many challenges there are.
    pub fn len(&self) -> usize
        ensures length { result ≡ length self.now.items }
    {
        self.order.len()
    }

    /// The challenge that an entry opened.
    pub fn get(&self, entry: u64) -> Option<&Pending>
        ensures row { option_copied result ≡ find (is_of_entry entry) self.now.items }
    {
        match self.order.get(&entry) {
            Some(key) => row_in(self.rows.get(*key)),
            None => None,
        }
    }

    /// The challenge at a place in the order of opening.
    pub fn nth(&self, i: usize) -> Option<&Pending>
        ensures row { option_copied result ≡ slice_get self.now.items i }
    {
        match self.order.get_index(i) {
            Some((_entry, key)) => row_in(self.rows.get(*key)),
            None => None,
        }
    }

    /// Takes room for one more challenge. A refusal leaves the challenges as they were.
    pub fn reserve(&mut self) -> Result<(), NoMemory>
        ensures items { self.new.items ≡ self.old.items }
        ensures ok { OnOk result (0 < self.new.room) }
    {
        self.rows.reserve(1)?;
        self.order.reserve(1)?;
        Ok(())
    }

    /// Puts a challenge at the end.
    pub fn push(&mut self, filed: Filed)
        requires room { 0 < self.old.room }
        requires fresh { find (is_of_entry filed.row.entry) self.old.items ≡ None }
        requires text { string_bytes filed.cookie_text ≡ cookie_text filed.row.cookie }
        ensures items { self.new.items ≡ self.old.items ++ filed.row ∷ [] }
    {
        let entry = filed.row.entry;
        let key = self.rows.insert_reserved(filed);
        match self.order.insert(entry, key) {
            Ok(_) => {}
            Err(_) => unreachable!(),
        }
    }

    /// Takes the challenge that an entry opened out.
    pub fn take(&mut self, entry: u64) -> Option<Filed>
        ensures row { option_map row_of result ≡ find (is_of_entry entry) self.old.items }
        ensures text { IfSome result (λ filed. string_bytes filed.cookie_text ≡ cookie_text filed.row.cookie) }
        ensures items { self.new.items ≡ without entry self.old.items }
    {
        match self.order.shift_remove(&entry) {
            Some(key) => self.rows.try_remove(key),
            None => None,
        }
    }

    /// Notes who answered the challenge that an entry opened.
    pub fn answer(&mut self, entry: u64, identity: Identity)
        ensures items { self.new.items ≡ map (answered_by entry identity) self.old.items }
    {
        let Some(key) = self.order.get(&entry) else {
            return;
        };
        let Some(filed) = self.rows.get_mut(*key) else {
            return;
        };
        filed.row.answered = Some(identity);
    }
}
