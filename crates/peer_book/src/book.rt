// The table of connections, and the entry that is staged.
ghost use Rattle.std.specs.Prelude.{◌≡◌, ◌<◌, ◌^◌, [], ℕ, None, Some, IfOk, OnErr, OnOk, false, length, option_and_then, slice_get};
ghost use Rattle.std.specs.Option.{option_map, option_map_or};
ghost use Rattle.authority_model.specs.Subjects.{process_id};
ghost use Rattle.entry_changes.specs.Known.{live_announced};
ghost use Rattle.indexmap.specs.IndexMap.{spare};
ghost use Rattle.peer_book.specs.Rows.{row_in};
ghost use Rattle.peer_book.specs.Places.{CanTake, KeepsPlaces, count_in, pair_of, place_at, places_in, places_of};
ghost use Rattle.peer_book.specs.Counts.{collected_in};
ghost use Rattle.peer_book.specs.Book.{IsPeersOf, ShowsOutput, StandsAfter, live_uid, receivers as receivers_among, staged_for};

use crate::counts::{Counts, carry_counts, collected};
use crate::places::{PlaceRows, count, fill, place, widen};
use crate::rows::PeerRows;
use authority_model::{Entry, Output, World};
use entry_changes::Peer;
use indexmap::IndexMap;
use pk_types::{List, MAX_NUMBER, NoMemory};
use std::alloc::Global;
use std::marker::Model;

/// The connections that were ever made, the outputs to each and what others collected of them, and
/// whether an entry is staged.
#[derive(Drop)]
pub struct PeerBook {
    alloc: Global,
    peers: PeerRows,
    places: PlaceRows,
    counts: Counts,
    entries: u64,
    staged: Option<List<u32>>,
}

impl Model for PeerBook {
    ghost use Rattle.indexmap.specs.IndexMap.{spare};
    ghost use Rattle.peer_book.specs.Places.{shown};
    ghost use Rattle.peer_book.specs.Book.{IsBook, Peers};

    ghost Value = { Peers };

    ghost view = { λ a. record { rows = a.peers.rows; live = a.peers.live; places = shown a.places.entries; counts = a.counts.entries; entries = a.entries; staged = a.staged } };

    ghost invariant = { λ a. IsBook a.peers.room a.places.entries (spare a.counts) a.entries a.staged };
}

/// Who the outputs are sent to.
fn receivers_of(alloc: Global, outputs: &[Output]) -> Result<List<u32>, NoMemory>
    ensures receivers { IfOk result (λ list. list ≡ receivers_among outputs.now) }
{
    let mut receivers = List::new(alloc);
    for output in outputs {
        receivers.try_push(output.to)?;
    }
    Ok(receivers)
}

/// Takes room in each table for an entry with outputs to these receivers. What the tables tell stays.
fn take_rooms(
    alloc: Global,
    peers: &mut PeerRows,
    places: &mut PlaceRows,
    counts: &mut Counts,
    receivers: &[u32],
) -> Result<(), NoMemory>
    requires few { (c : ℕ) → length (places_in places.old.entries c) < 2 ^ 32 }
    ensures rows { peers.new.rows ≡ peers.old.rows }
    ensures live { peers.new.live ≡ peers.old.live }
    ensures kept { KeepsPlaces places.old.entries places.new.entries }
    ensures counts { counts.new.entries ≡ counts.old.entries }
    ensures row { OnOk result (0 < peers.new.room) }
    ensures count { OnOk result (0 < spare counts.new) }
    ensures can { OnOk result ((c : ℕ) → CanTake places.new.entries c (count_in c receivers.now)) }
{
    widen(alloc, places, receivers)?;
    counts.reserve(1)?;
    peers.reserve()
}

impl PeerBook {
    /// The table of the empty history. It takes no memory.
    pub fn new(alloc: Global) -> Result<PeerBook, NoMemory>
        ensures empty { IfOk result (IsPeersOf []) }
        ensures none { IfOk result (λ book. book.staged ≡ None) }
    {
        Ok(PeerBook {
            alloc,
            peers: PeerRows::new(alloc),
            places: IndexMap::new(alloc),
            counts: IndexMap::new(alloc),
            entries: 0,
            staged: None,
        })
    }

    /// What is known of a connection; `None` exactly where it never connected.
    pub fn peer(&self, caller: u32) -> Option<Peer>
        ensures row { result ≡ row_in self.now.rows caller }
    {
        self.peers.row(caller)
    }

    /// The uid of a live connection.
    pub fn uid(&self, caller: u32) -> Option<u32>
        ensures uid { result ≡ option_and_then live_uid (row_in self.now.rows caller) }
    {
        match self.peers.row(caller) {
            Some(row) if !row.departed => Some(row.uid),
            _ => None,
        }
    }

    /// The pid and the start of the process that a live connection announced.
    pub fn announced(&self, caller: u32) -> Option<(u32, u64)>
        ensures announced { option_map process_id result ≡ option_and_then live_announced (row_in self.now.rows caller) }
    {
        let process = self.peers.row(caller)?.live_announced()?;
        Some((process.pid, process.start))
    }

    /// Whether a connection connected and is no longer live.
    pub fn departed(&self, caller: u32) -> bool
        ensures departed { result ≡ option_map_or (λ row. row.departed) (row_in self.now.rows caller) false }
    {
        match self.peers.row(caller) {
            Some(row) => row.departed,
            None => false,
        }
    }

    /// How many outputs went to a connection.
    pub fn sent_count(&self, caller: u32) -> u32
        ensures count { result ≡ length (places_of self.now.places caller) }
    {
        count(&self.places, caller) as u32
    }

    /// Where the output to a connection stands that has this number among those that it was sent,
    /// counted from 1: the place of its entry in the journal, and its own among the outputs of the
    /// entry, both counted from 0. `None` for the number 0, and where fewer were sent.
    pub fn place(&self, caller: u32, number: u32) -> Option<(u64, u32)>
        ensures place { result ≡ option_map pair_of (place_at (places_of self.now.places caller) number) }
        ensures output { ShowsOutput self.now caller number result }
    {
        place(&self.places, caller, number)
    }

    /// How many of the outputs to a connection another one has collected.
    pub fn collected(&self, by: u32, of: u32) -> u32
        ensures count { result ≡ collected_in self.now.counts by of }
    {
        collected(&self.counts, by, of)
    }

    /// The live connection at a place, counted from 0, by rising number.
    pub fn live(&self, i: usize) -> Option<u32>
        ensures number { result ≡ slice_get self.now.live i }
    {
        self.peers.nth_live(i)
    }

    /// How many connections are live.
    pub fn live_len(&self) -> usize
        ensures length { result ≡ length self.now.live }
    {
        self.peers.live_len()
    }

    /// How many entries the table stands for.
    pub fn entries(&self) -> u64
        ensures entries { result ≡ self.now.entries }
    {
        self.entries
    }

    /// Takes all memory that an entry needs. The table stands for the same; after a refusal nothing is
    /// staged.
    pub fn stage(&mut self, entry: &Entry) -> Result<(), NoMemory>
        ensures ok { OnOk result (self.new ≡ staged_for (Some (receivers_among entry.now.outputs)) self.old) }
        ensures err { OnErr result (self.new ≡ staged_for None self.old) }
    {
        self.staged = None;
        let receivers = receivers_of(self.alloc, entry.outputs.as_slice())?;
        if receivers.len() > MAX_NUMBER as usize || self.entries == u64::MAX {
            return Err(NoMemory);
        }
        take_rooms(
            self.alloc,
            &mut self.peers,
            &mut self.places,
            &mut self.counts,
            receivers.as_slice(),
        )?;
        self.staged = Some(receivers);
        Ok(())
    }

    /// Drops what is staged. It takes no memory.
    pub fn unstage(&mut self)
        ensures none { self.new ≡ staged_for None self.old }
    {
        self.staged = None;
    }

    /// Carries the table on by the entry that is staged, in the world in force after it. It takes no
    /// memory.
    pub fn apply_entry(&mut self, entry: &Entry, world: &World)
        requires staged { self.old.staged ≡ Some (receivers_among entry.now.outputs) }
        ensures stands { StandsAfter entry.now world.now self.old self.new }
        ensures none { self.new.staged ≡ None }
    {
        carry_counts(&mut self.counts, entry, &self.places);
        self.peers.carry(entry, world);
        fill(&mut self.places, self.entries, entry.outputs.as_slice());
        self.entries += 1;
        self.staged = None;
    }
}
