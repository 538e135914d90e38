// What is known of each connection, and which are live.
ghost use Rattle.std.specs.Prelude.{◌≡◌, ◌<◌, ◌==◌, ℕ, Some, [], slice_get, cond, length, OnOk};
ghost use Rattle.indexmap.specs.IndexMap.{spare};
ghost use Rattle.peer_book.specs.Rows.{CarriesRows, IsLiveOf, row_in};

use crate::live::Rising;
use crate::next::row_after;
use authority_model::{Entry, World};
use entry_changes::Peer;
use indexmap::IndexMap;
use pk_types::NoMemory;
use std::alloc::Global;
use std::marker::Model;

/// The connections that were ever made, with what is known of each, and the numbers of the live ones.
///
/// A connection that departed stays, so that a second Connect of it has no effect.
#[derive(Drop)]
pub struct PeerRows {
    rows: IndexMap<u32, Peer>,
    live: Rising,
}

impl Model for PeerRows {
    ghost use Rattle.std.specs.Prelude.{min};
    ghost use Rattle.indexmap.specs.IndexMap.{spare};
    ghost use Rattle.peer_book.specs.Rows.{IsLiveOf, Rows};

    ghost Value = { Rows };

    ghost view = { λ a. record { rows = a.rows.entries; live = a.live.items; room = min (spare a.rows) a.live.room } };

    ghost invariant = { λ a. IsLiveOf a.rows.entries a.live.items };
}

/// Puts the row of a connection in, where there is room.
fn put_row(rows: &mut IndexMap<u32, Peer>, caller: u32, row: Peer)
    requires room { 0 < spare rows.old }
    ensures put { (c : ℕ) → row_in rows.new.entries c ≡ cond (caller == c) (Some row) (row_in rows.old.entries c) }
{
    match rows.insert(caller, row) {
        Ok(_) => {}
        Err(_) => unreachable!(),
    }
}

impl PeerRows {
    /// No connections. It takes no memory.
    pub fn new(alloc: Global) -> PeerRows
        ensures none { result.rows ≡ [] }
        ensures live { result.live ≡ [] }
    {
        PeerRows {
            rows: IndexMap::new(alloc),
            live: Rising::new(alloc),
        }
    }

    /// What is known of a connection; `None` exactly where it never connected.
    pub fn row(&self, caller: u32) -> Option<Peer>
        ensures row { result ≡ row_in self.now.rows caller }
        ensures live { IsLiveOf self.now.rows self.now.live }
    {
        self.rows.get(&caller).copied()
    }

    /// The live connection at a place, counted from 0, by rising number.
    pub fn nth_live(&self, i: usize) -> Option<u32>
        ensures number { result ≡ slice_get self.now.live i }
    {
        self.live.nth(i)
    }

    /// How many connections are live.
    pub fn live_len(&self) -> usize
        ensures length { result ≡ length self.now.live }
    {
        self.live.len()
    }

    /// Takes room for one more connection. The rows stay.
    pub fn reserve(&mut self) -> Result<(), NoMemory>
        ensures rows { self.new.rows ≡ self.old.rows }
        ensures live { self.new.live ≡ self.old.live }
        ensures ok { OnOk result (0 < self.new.room) }
    {
        self.rows.reserve(1)?;
        self.live.reserve()
    }

    /// Carries the rows on by one entry, in the world in force. It takes no memory.
    pub fn carry(&mut self, entry: &Entry, world: &World)
        requires room { 0 < self.old.room }
        ensures rows { CarriesRows entry.now world.now self.old.rows self.new.rows }
        ensures live { IsLiveOf self.new.rows self.new.live }
    {
        let row = self.row(entry.caller);
        let Some(next) = row_after(world, row, &entry.event) else {
            return;
        };
        put_row(&mut self.rows, entry.caller, next);
        if next.departed {
            self.live.take_out(entry.caller);
        } else {
            self.live.put(entry.caller);
        }
    }
}
