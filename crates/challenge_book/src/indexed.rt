// The pending challenges in the order of opening, with an index for each look-up.
ghost use Rattle.std.specs.Prelude.{◌≡◌, ◌<◌, ◌≤◌, ◌++◌, ◌∷◌, [], find, filter, map, length, slice_get, OnOk};
ghost use Rattle.std.specs.Option.{option_copied};
ghost use Rattle.entry_changes.specs.Finding.{is_of_user, is_sent, named as first_named};
ghost use Rattle.entry_changes.specs.Finding.{with_cookie};
ghost use Rattle.entry_changes.specs.Changes.{AreApart, IsFresh, without, answered_by};
ghost use Rattle.challenge_book.specs.Ready.{AreKeysOf};
ghost use Rattle.challenge_book.specs.declared.indexed.TheConstants.{MAX_CHALLENGES as the_most};

use crate::filed::{Filed, RowKeys};
use crate::indexes::{
    AgentIndex, CancelIndex, CookieIndex, asked, named, of_cookie, put_asked, put_cookie,
    put_named, take_asked, take_cookie, take_named,
};
use crate::rows::PendingRows;
use crate::user_counts::UserCounts;
use authority_model::Pending;
use indexmap::IndexMap;
use pk_types::{Identity, NoMemory, Text};
use std::alloc::Global;
use std::marker::Model;

/// How many challenges may be pending at once: as many as a `u32` counts.
pub const MAX_CHALLENGES: usize = u32::MAX as usize;

/// The pending challenges in the order of opening, with an index for each look-up.
#[derive(Drop)]
pub struct IndexedRows {
    rows: PendingRows,
    by_cookie: CookieIndex,
    by_agent: AgentIndex,
    by_cancel: CancelIndex,
    by_user: UserCounts,
}

impl Model for IndexedRows {
    ghost use Rattle.std.specs.Prelude.{◌-◌, min, length};
    ghost use Rattle.indexmap.specs.IndexMap.{spare};
    ghost use Rattle.challenge_book.specs.declared.indexed.TheConstants.{MAX_CHALLENGES};
    ghost use Rattle.challenge_book.specs.Rows.{Rows};
    ghost use Rattle.challenge_book.specs.Keys.{AreIndexed};

    ghost Value = { Rows };

    ghost view = { λ a. record {
      items = a.rows.items;
      room = min (MAX_CHALLENGES - length a.rows.items) (min a.rows.room (min (spare a.by_cookie) (min (spare a.by_agent) (min (spare a.by_cancel) a.by_user.room))));
    } };

    ghost invariant = { λ a. AreIndexed a.rows.items a.by_cookie.entries a.by_agent.entries a.by_cancel.entries a.by_user.entries };
}

impl IndexedRows {
    /// No challenges. It takes no memory.
    pub fn new(alloc: Global) -> IndexedRows
        ensures empty { result.items ≡ [] }
    {
        IndexedRows {
            rows: PendingRows::new(alloc),
            by_cookie: IndexMap::new(alloc),
            by_agent: IndexMap::new(alloc),
            by_cancel: IndexMap::new(alloc),
            by_user: UserCounts::new(alloc),
        }
    }

    /// How many challenges there are. No two of them can be mistaken for each other.
    pub fn len(&self) -> usize
        ensures length { result ≡ length self.now.items }
        ensures few { result ≤ the_most }
        ensures apart { AreApart self.now.items }
    {
        self.rows.len()
    }

    /// The challenge at a place in the order of opening.
    pub fn nth(&self, i: usize) -> Option<&Pending>
        ensures row { option_copied result ≡ slice_get self.now.items i }
    {
        self.rows.nth(i)
    }

    /// The challenge with the cookie of this text.
    pub fn of_cookie(&self, cookie: &Text) -> Option<&Pending>
        ensures row { option_copied result ≡ with_cookie cookie.now self.now.items }
    {
        match of_cookie(&self.by_cookie, cookie.bytes()) {
            Some(entry) => self.rows.get(entry),
            None => None,
        }
    }

    /// The challenge that this connection was asked with this serial.
    pub fn of_serial(&self, agent: u32, serial: u32) -> Option<&Pending>
        ensures row { option_copied result ≡ find (is_sent agent serial) self.now.items }
    {
        match asked(&self.by_agent, agent, serial) {
            Some(entry) => self.rows.get(entry),
            None => None,
        }
    }

    /// The challenge of this connection's check with this cancellation id; none for an empty id.
    pub fn of_cancel(&self, asker: u32, id: &Text) -> Option<&Pending>
        ensures row { option_copied result ≡ first_named asker id.now self.now.items }
    {
        match named(&self.by_cancel, asker, id.bytes()) {
            Some(entry) => self.rows.get(entry),
            None => None,
        }
    }

    /// How many challenges are of checks of a user.
    pub fn count_of_uid(&self, uid: u32) -> u32
        ensures count { result ≡ length (filter (is_of_user uid) self.now.items) }
    {
        self.by_user.of(uid)
    }

    /// Takes room for one more challenge. A refusal leaves the challenges as they were.
    pub fn reserve(&mut self) -> Result<(), NoMemory>
        ensures items { self.new.items ≡ self.old.items }
        ensures ok { OnOk result (0 < self.new.room) }
    {
        if self.rows.len() >= MAX_CHALLENGES {
            return Err(NoMemory);
        }
        self.rows.reserve()?;
        self.by_cookie.reserve(1)?;
        self.by_agent.reserve(1)?;
        self.by_cancel.reserve(1)?;
        self.by_user.reserve()?;
        Ok(())
    }

    /// Puts a challenge at the end, with its keys.
    pub fn push(&mut self, row: Pending, keys: RowKeys)
        requires room { 0 < self.old.room }
        requires fresh { IsFresh row self.old.items }
        requires keys { AreKeysOf row keys }
        ensures items { self.new.items ≡ self.old.items ++ row ∷ [] }
    {
        let RowKeys {
            cookie_text,
            cookie,
            cancel,
        } = keys;
        put_cookie(&mut self.by_cookie, cookie, row.entry);
        put_asked(&mut self.by_agent, row.agent, row.agent_serial, row.entry);
        put_named(&mut self.by_cancel, row.asker, cancel, row.entry);
        self.by_user.count_up(row.asker_uid);
        self.rows.push(Filed { row, cookie_text });
    }

    /// Takes the challenge that an entry opened out.
    pub fn take(&mut self, entry: u64)
        ensures items { self.new.items ≡ without entry self.old.items }
    {
        let Some(filed) = self.rows.take(entry) else {
            return;
        };
        take_cookie(&mut self.by_cookie, filed.cookie_text.as_bytes());
        take_asked(&mut self.by_agent, filed.row.agent, filed.row.agent_serial);
        take_named(
            &mut self.by_cancel,
            filed.row.asker,
            filed.row.cancel.bytes(),
        );
        self.by_user.count_down(filed.row.asker_uid);
    }

    /// Notes who answered the challenge that an entry opened.
    pub fn answer(&mut self, entry: u64, identity: Identity)
        ensures items { self.new.items ≡ map (answered_by entry identity) self.old.items }
    {
        self.rows.answer(entry, identity);
    }
}
